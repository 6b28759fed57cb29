//! Texts as trees.
ghost use Rattle.std.specs.Prelude.{◌≡◌, ◌≤◌, IfOk, length};
ghost use Rattle.teg_calc.specs.ExpressionTrees.{HasShortNumbers, node_count, tree_of_expression};
ghost use Rattle.teg_calc.specs.ParseAnswers.{HasOneTree, IsParseOf};
ghost use Rattle.teg_calc.specs.Readers.{refused_at};

use crate::expressions::Expr;
use crate::readers::Reader;
use crate::refusals::{ParseRefused, Stop};
use std::alloc::Global;

/// The tree of a text of at most 4,096 bytes.
///
/// Syntax comes exactly where the text is no expression, with the length of the longest prefix of
/// the text that is a prefix of some expression. TooDeep comes instead, exactly where in this
/// prefix a bracket is opened while 64 are open, with the offset of the first such bracket. `+` and
/// `.` group to the left, so a text has one tree. It has at most 4,096 nodes, and each shift and
/// date in it is below 10^19. `OutOfMemory` comes only where no memory is found. It takes time of
/// the order of the text.
pub fn parse(alloc: Global, text: &[u8]) -> Result<Expr, ParseRefused>
    requires { length text.now ≤ 4096 }
    ensures answer { IsParseOf text.now result }
    ensures nodes { IfOk result (λ expr. node_count (tree_of_expression expr) ≤ 4096) }
    ensures numbers { IfOk result (λ expr. HasShortNumbers (tree_of_expression expr)) }
    ensures one { HasOneTree text.now }
{
    let mut reader = Reader::new(alloc);
    for at in 0..text.len() {
        match reader.after(alloc, text[at]) {
            Ok(next) => reader = next,
            Err(stop) => return Err(refused(stop, at as u32)),
        }
    }
    match reader.finish(alloc) {
        Ok(expr) => Ok(expr),
        Err(stop) => Err(refused(stop, text.len() as u32)),
    }
}

// The refusal at an offset.
fn refused(stop: Stop, at: u32) -> ParseRefused
    ensures { result ≡ refused_at at stop }
{
    match stop {
        Stop::Unexpected => ParseRefused::Syntax { at },
        Stop::TooDeep => ParseRefused::TooDeep { at },
        Stop::OutOfMemory => ParseRefused::OutOfMemory,
    }
}
