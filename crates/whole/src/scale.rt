// The scale of EAC's values.
ghost use Rattle.std.specs.Prelude.{◌≡◌};
ghost use Rattle.rules.specs.Channels.{alpha_steps_lem};

use eac::values;
use eac::values::Span;

// What the values of a block are made of beside its bytes: the numbers in which signed and unsigned values differ, and the table of steps,
// which is lent, since a function that names it stores all of it.
#[derive(Clone, Copy)]
pub struct Scale<'a> {
    pub span: Span,
    pub table: &'a [[i8; 8]; 16],
    ghost steps: { table.now ≡ alpha_steps_lem },
}

// The scale of signed or of unsigned values.
pub fn scale_of<'a>(signed: bool, table: &'a [[i8; 8]; 16]) -> Scale<'a>
    requires { table.now ≡ alpha_steps_lem }
    ensures { result.span.signed ≡ signed }
{
    Scale {
        span: values::span_of(signed),
        table,
    }
}
