//! Records of two or three fields.
ghost use Rattle.std.specs.Prelude.{◌≡◌, ◌≢◌, ◌∷◌, [], length, IfSome, IfNone};
ghost use Rattle.csv.specs.Records.{fields_of};

use csv::ByteRecord;

/// The fields of a record of two.
#[derive(Clone, Copy, Drop)]
pub struct TwoFields<'r> {
    pub first: &'r [u8],
    pub second: &'r [u8],
}

/// The fields of a record of three.
#[derive(Clone, Copy, Drop)]
pub struct ThreeFields<'r> {
    pub first: &'r [u8],
    pub second: &'r [u8],
    pub third: &'r [u8],
}

/// The two fields of a record; none exactly where it has another number of them. It takes no
/// memory.
pub fn two_fields<'r>(row: &'r ByteRecord) -> Option<TwoFields<'r>>
    ensures some { IfSome result (λ f. fields_of row.now ≡ f.first.now ∷ f.second.now ∷ []) }
    ensures none { IfNone result (length (fields_of row.now) ≢ 2) }
{
    if row.len() != 2 {
        return None;
    }
    let first = row.get(0)?;
    let second = row.get(1)?;
    Some(TwoFields { first, second })
}

/// The three fields of a record; none exactly where it has another number of them. It takes no
/// memory.
pub fn three_fields<'r>(row: &'r ByteRecord) -> Option<ThreeFields<'r>>
    ensures some { IfSome result (λ f. fields_of row.now
        ≡ f.first.now ∷ f.second.now ∷ f.third.now ∷ []) }
    ensures none { IfNone result (length (fields_of row.now) ≢ 3) }
{
    if row.len() != 3 {
        return None;
    }
    let first = row.get(0)?;
    let second = row.get(1)?;
    let third = row.get(2)?;
    Some(ThreeFields {
        first,
        second,
        third,
    })
}
