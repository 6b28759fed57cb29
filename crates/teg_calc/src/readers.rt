//! A reader of expressions, byte by byte: the open brackets, and where the next byte stands.
ghost use Rattle.std.specs.Prelude.{◌≡◌, ◌≢◌, ◌<◌, ◌↔◌, IfSome, IsTrue, length, slice_get};
ghost use Rattle.teg_calc.specs.ExpressionTrees.{tree_of_expression};
ghost use Rattle.teg_calc.specs.Readers.{Finishes, Goes, GoesOnByByte, HasFewDigits, IsAt, ReachesLevels, StandsWell, behind_step, close_step, comma_step, date_on, factor_of, factored, finish, gone_on, nested, operand_step, operator_by, operator_step, stand_of, start, state, state_of, step, letters_of, term_of, tree_in, within, within_step, word_on};

use crate::brackets::{
    Bracket, Call, Summed, closed, joined, let_go, multiplied, opened, takes_comma, with_factor,
    with_term,
};
use crate::bytes::{Sign, digit_of, sign_of};
use crate::expressions::Expr;
use crate::refusals::Stop;
use crate::tokens::{Part, Word, begun_by, letters};
use std::alloc::Global;

// Where the next byte stands.
#[derive(Drop)]
pub(crate) enum ReadPlace {
    // Where an operand begins.
    Operand,
    // Inside a token or behind it.
    Within(Part),
    // Behind this term.
    Operator(Expr),
}

// What was read so far: the outer open brackets, the innermost one, and where the next byte stands.
#[derive(Drop)]
pub(crate) struct Reader {
    pub(crate) outer: Vec<Bracket>,
    pub(crate) inner: Bracket,
    pub(crate) place: ReadPlace,
}

impl Reader {
    // Before the first byte.
    pub(crate) fn new(alloc: Global) -> Reader
        ensures { state_of result ≡ start }
    {
        Reader {
            outer: Vec::new(alloc),
            inner: opened(Call::Text),
            place: ReadPlace::Operand,
        }
    }

    // The reader after one more byte.
    pub(crate) fn after(self, alloc: Global, byte: u8) -> Result<Reader, Stop>
        requires { StandsWell (stand_of self.place) }
        ensures { GoesOnByByte (step (state_of self) byte) (length self.outer.items) byte result }
    {
        let Reader {
            outer,
            inner,
            place,
        } = self;
        match place {
            ReadPlace::Operand => operand(outer, inner, byte),
            ReadPlace::Within(part) => within(alloc, outer, inner, part, byte),
            ReadPlace::Operator(term) => operator(alloc, outer, inner, term, byte),
        }
    }

    // The tree of what was read; Unexpected where that is no whole expression.
    pub(crate) fn finish(self, alloc: Global) -> Result<Expr, Stop>
        ensures { Finishes (finish (state_of self)) result }
    {
        let Reader {
            outer,
            inner,
            place,
        } = self;
        if !outer.is_empty() {
            let_go(inner);
            let_go(place);
            return Err(Stop::Unexpected);
        }
        let Bracket {
            call: _,
            first,
            sum,
            product,
        } = inner;
        let_go(first);
        match last_term(alloc, place, product) {
            Ok(term) => Ok(joined(alloc, sum, term)?),
            Err(stop) => {
                let_go(sum);
                Err(stop)
            }
        }
    }
}

// The term that ends where the text does, after the product so far; Unexpected where none does.
fn last_term(alloc: Global, place: ReadPlace, product: Option<Expr>) -> Result<Expr, Stop>
    ensures { Finishes (term_of (stand_of place) (tree_in product)) result }
{
    match place {
        ReadPlace::Operand => {
            let_go(product);
            Err(Stop::Unexpected)
        }
        ReadPlace::Within(part) => match factor_of(part) {
            Some(factor) => Ok(multiplied(alloc, product, factor)?),
            None => {
                let_go(product);
                Err(Stop::Unexpected)
            }
        },
        ReadPlace::Operator(term) => {
            let_go(product);
            Ok(term)
        }
    }
}

// The brackets once one more is opened.
fn nested(mut outer: Vec<Bracket>, inner: Bracket, call: Call) -> Result<Reader, Stop>
    ensures { Goes (λ o i _. Some (nested o i call)) outer.items inner 40 result }
{
    if outer.len() >= 64 {
        let_go(inner);
        return Err(Stop::TooDeep);
    }
    outer.push(inner)?;
    Ok(Reader {
        outer,
        inner: opened(call),
        place: ReadPlace::Operand,
    })
}

// One byte more, where an operand begins.
fn operand(outer: Vec<Bracket>, inner: Bracket, byte: u8) -> Result<Reader, Stop>
    ensures { Goes operand_step outer.items inner byte result }
{
    match sign_of(byte) {
        Sign::Blank => Ok(Reader {
            outer,
            inner,
            place: ReadPlace::Operand,
        }),
        Sign::Open => nested(outer, inner, Call::Group),
        _ => match begun_by(byte) {
            Some(part) => Ok(Reader {
                outer,
                inner,
                place: ReadPlace::Within(part),
            }),
            None => {
                let_go(inner);
                Err(Stop::Unexpected)
            }
        },
    }
}

// Behind one more factor.
fn factored(
    alloc: Global,
    outer: Vec<Bracket>,
    inner: Bracket,
    factor: Expr,
) -> Result<Reader, Stop>
    ensures { ReachesLevels (λ o i. Some (factored o i (tree_of_expression factor))) outer.items
        inner result }
{
    let (inner, term) = with_factor(alloc, inner, factor)?;
    Ok(Reader {
        outer,
        inner,
        place: ReadPlace::Operator(term),
    })
}

// The innermost bracket closed behind a term.
fn close(alloc: Global, mut outer: Vec<Bracket>, inner: Bracket, term: Expr) -> Result<Reader, Stop>
    ensures { ReachesLevels (λ o i. close_step o i (tree_of_expression term)) outer.items inner
        result }
{
    let last = with_term(alloc, inner, term)?;
    match closed(alloc, last.call, last.first, last.sum)? {
        None => Err(Stop::Unexpected),
        Some(factor) => match outer.pop() {
            None => {
                let_go(factor);
                Err(Stop::Unexpected)
            }
            Some(inner) => factored(alloc, outer, inner, factor),
        },
    }
}

// One byte more behind a term.
fn operator(
    alloc: Global,
    outer: Vec<Bracket>,
    inner: Bracket,
    term: Expr,
    byte: u8,
) -> Result<Reader, Stop>
    ensures { Goes (λ o i b. operator_step o i (tree_of_expression term) b) outer.items inner byte
        result }
{
    match sign_of(byte) {
        Sign::Blank => Ok(Reader {
            outer,
            inner,
            place: ReadPlace::Operator(term),
        }),
        Sign::Plus => before_term(alloc, outer, inner, term),
        Sign::Dot => Ok(before_factor(outer, inner, term)),
        Sign::Comma => comma(alloc, outer, inner, term),
        Sign::Close => close(alloc, outer, inner, term),
        _ => {
            let_go(inner);
            let_go(term);
            Err(Stop::Unexpected)
        }
    }
}

// Behind a term and a `+`.
fn before_term(
    alloc: Global,
    outer: Vec<Bracket>,
    inner: Bracket,
    term: Expr,
) -> Result<Reader, Stop>
    ensures { ReachesLevels (λ o i. operator_by Sign.Plus o i (tree_of_expression term)) outer.items
        inner result }
{
    let Summed { call, first, sum } = with_term(alloc, inner, term)?;
    Ok(Reader {
        outer,
        inner: Bracket {
            call,
            first,
            sum: Some(sum),
            product: None,
        },
        place: ReadPlace::Operand,
    })
}

// Behind a term and a `.`.
fn before_factor(outer: Vec<Bracket>, inner: Bracket, term: Expr) -> Reader
    ensures { IsAt (λ o i. operator_by Sign.Dot o i (tree_of_expression term)) outer.items inner
        result }
{
    let Bracket {
        call,
        first,
        sum,
        product,
    } = inner;
    let_go(product);
    Reader {
        outer,
        inner: Bracket {
            call,
            first,
            sum,
            product: Some(term),
        },
        place: ReadPlace::Operand,
    }
}

// Behind the first operand of a call and a comma.
fn comma(alloc: Global, outer: Vec<Bracket>, inner: Bracket, term: Expr) -> Result<Reader, Stop>
    ensures { ReachesLevels (λ o i. comma_step o i (tree_of_expression term)) outer.items inner
        result }
{
    if !takes_comma(inner.call, &inner.first) {
        let_go(inner);
        let_go(term);
        return Err(Stop::Unexpected);
    }
    let Summed { call, first, sum } = with_term(alloc, inner, term)?;
    let_go(first);
    Ok(Reader {
        outer,
        inner: Bracket {
            call,
            first: Some(sum),
            sum: None,
            product: None,
        },
        place: ReadPlace::Operand,
    })
}

// The factor that a token is, where it may end there.
fn factor_of(part: Part) -> Option<Expr>
    ensures { tree_in result ≡ factor_of part }
{
    match part {
        Part::Unit => Some(Expr::Unit),
        Part::Date {
            shift,
            minus,
            count,
            value,
        } => {
            if count == 0 {
                None
            } else {
                Some(Expr::Mono {
                    shift,
                    minus,
                    date: value,
                })
            }
        }
        _ => None,
    }
}

// One byte more in a token or behind it.
fn within(
    alloc: Global,
    outer: Vec<Bracket>,
    inner: Bracket,
    part: Part,
    byte: u8,
) -> Result<Reader, Stop>
    requires { HasFewDigits part }
    ensures { Goes (within_step part) outer.items inner byte result }
{
    match part {
        Part::Letters { word, read } => {
            if !is_next_letter(word, read, byte) {
                let_go(inner);
                return Err(Stop::Unexpected);
            }
            letter(alloc, outer, inner, word, read)
        }
        Part::Name { call } => named(outer, inner, call, byte),
        _ => match gone_on(part, byte) {
            Some(part) => Ok(Reader {
                outer,
                inner,
                place: ReadPlace::Within(part),
            }),
            None => match factor_of(part) {
                Some(factor) => behind(alloc, outer, inner, factor, byte),
                None => {
                    let_go(inner);
                    Err(Stop::Unexpected)
                }
            },
        },
    }
}

// One byte more behind a factor that ends before it.
fn behind(
    alloc: Global,
    outer: Vec<Bracket>,
    inner: Bracket,
    factor: Expr,
    byte: u8,
) -> Result<Reader, Stop>
    ensures { Goes (λ o i b. behind_step o i (Some (tree_of_expression factor)) b) outer.items inner
        byte
        result }
{
    let (inner, term) = with_factor(alloc, inner, factor)?;
    operator(alloc, outer, inner, term, byte)
}

// A token with one byte more, where it goes on by that byte.
fn gone_on(part: Part, byte: u8) -> Option<Part>
    requires { HasFewDigits part }
    ensures value { result ≡ gone_on part byte }
    ensures short { IfSome result HasFewDigits }
    ensures opens_none { IfSome result (λ _. byte ≢ 40) }
{
    match part {
        Part::Unit => {
            if byte == b'p' {
                Some(Part::Letters {
                    word: Word::Eps,
                    read: 2,
                })
            } else {
                None
            }
        }
        Part::Shift { count, value } => shift_on(count, value, byte),
        Part::Delta { shift } => {
            if byte == b'-' {
                Some(Part::Date {
                    shift,
                    minus: true,
                    count: 0,
                    value: 0,
                })
            } else {
                date_on(shift, false, 0, 0, byte)
            }
        }
        Part::Date {
            shift,
            minus,
            count,
            value,
        } => date_on(shift, minus, count, value, byte),
        _ => None,
    }
}

// The shift of a monomial with one byte more.
fn shift_on(count: u8, value: u64, byte: u8) -> Option<Part>
    requires { HasFewDigits (Part.Shift count value) }
    ensures value { result ≡ gone_on (Part.Shift count value) byte }
    ensures short { IfSome result HasFewDigits }
    ensures opens_none { IfSome result (λ _. byte ≢ 40) }
{
    if byte == b'd' {
        return if count == 0 {
            None
        } else {
            Some(Part::Delta { shift: value })
        };
    }
    if count >= 19 {
        return None;
    }
    match digit_of(byte) {
        Some(digit) => Some(Part::Shift {
            count: count + 1,
            value: value * 10 + digit,
        }),
        None => None,
    }
}

// The date of a monomial with one byte more.
fn date_on(shift: u64, minus: bool, count: u8, value: u64, byte: u8) -> Option<Part>
    requires { HasFewDigits (Part.Date shift minus count value) }
    ensures value { result ≡ date_on shift minus count value byte }
    ensures short { IfSome result HasFewDigits }
    ensures opens_none { IfSome result (λ _. byte ≢ 40) }
{
    if count >= 19 {
        return None;
    }
    match digit_of(byte) {
        Some(digit) => Some(Part::Date {
            shift,
            minus,
            count: count + 1,
            value: value * 10 + digit,
        }),
        None => None,
    }
}

// Whether the byte is the next letter of the word.
fn is_next_letter(word: Word, read: usize, byte: u8) -> bool
    ensures value { IsTrue result ↔ (slice_get (letters_of word) read ≡ Some byte) }
    ensures within { IsTrue result → read < length (letters_of word) }
    ensures opens_none { IsTrue result → byte ≢ 40 }
{
    let letters = letters(word);
    read < letters.len() && letters[read] == byte
}

// Behind one more letter of a word.
fn letter(
    alloc: Global,
    outer: Vec<Bracket>,
    inner: Bracket,
    word: Word,
    read: usize,
) -> Result<Reader, Stop>
    requires { read < length (letters_of word) }
    ensures { ReachesLevels (λ o i. Some (word_on word read o i)) outer.items inner result }
{
    if read + 1 < letters(word).len() {
        return Ok(Reader {
            outer,
            inner,
            place: ReadPlace::Within(Part::Letters {
                word,
                read: read + 1,
            }),
        });
    }
    match word {
        Word::Eps => factored(alloc, outer, inner, Expr::Epsilon),
        Word::Never => factored(alloc, outer, inner, Expr::Never),
        Word::Star => Ok(before_bracket(outer, inner, Call::Star)),
        Word::Min => Ok(before_bracket(outer, inner, Call::Least)),
        Word::Left => Ok(before_bracket(outer, inner, Call::Left)),
    }
}

// Behind the name of a call.
fn before_bracket(outer: Vec<Bracket>, inner: Bracket, call: Call) -> Reader
    ensures { IsAt (λ o i. Some (state o i (within (Part.Name call)))) outer.items inner result }
{
    Reader {
        outer,
        inner,
        place: ReadPlace::Within(Part::Name { call }),
    }
}

// One byte more behind the name of a call.
fn named(outer: Vec<Bracket>, inner: Bracket, call: Call, byte: u8) -> Result<Reader, Stop>
    ensures { Goes (within_step (Part.Name call)) outer.items inner byte result }
{
    match sign_of(byte) {
        Sign::Blank => Ok(before_bracket(outer, inner, call)),
        Sign::Open => nested(outer, inner, call),
        _ => {
            let_go(inner);
            Err(Stop::Unexpected)
        }
    }
}
