//! The text of an expression.
ghost use Rattle.std.specs.Prelude.{◌≡◌, ◌≤◌, IfOk, length};
ghost use Rattle.teg_outcome.specs.CommandLimits.{most_expression};

use std::alloc::Global;
use std::marker::Model;
use teg_net::{Label, OutOfMemory};

/// The most bytes that an expression has.
pub const MOST_EXPRESSION: usize = 4096;

/// The text of an expression, of at most 4,096 bytes. Contracts see its bytes.
#[derive(Debug, Drop)]
pub struct Expression {
    text: Label,
}

impl Model for Expression {
    ghost use Rattle.std.specs.Prelude.{List, ℕ, ◌≤◌, length};
    ghost use Rattle.teg_outcome.specs.CommandLimits.{most_expression};

    ghost Value = { List ℕ };

    ghost view = { λ e. e.text };

    ghost invariant = { λ e. length e.text ≤ most_expression };
}

impl Expression {
    /// A copy of the text. `OutOfMemory` comes only where no memory is found.
    pub fn new(alloc: Global, text: &str) -> Result<Expression, OutOfMemory>
        requires { length text.now ≤ most_expression }
        ensures { IfOk result (λ expression. expression ≡ text.now) }
    {
        let text = Label::new(alloc, text)?;
        Ok(Expression { text })
    }

    /// The text. It takes no memory.
    pub fn as_str(&self) -> &str
        ensures value { result.now ≡ self.now }
        ensures few { length result.now ≤ most_expression }
    {
        self.text.as_str()
    }
}
