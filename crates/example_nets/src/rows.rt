//! Tables of an example.
use std::alloc::Global;
use std::test::Fail;

/// Nothing where each row of a table is so; a failure with the number of the first that is not, from
/// 0.
pub fn all_so<R, F: Fn(Global, &R) -> Result<bool, Fail>>(
    alloc: Global,
    rows: &[R],
    is_so: &F,
) -> Result<(), Fail>
    requires { F.IsAlwaysCallable is_so.now }
{
    for (number, row) in rows.iter().enumerate() {
        if !is_so(alloc, row)? {
            return Err(Fail::new(format_args!("row {number}")));
        }
    }
    Ok(())
}
