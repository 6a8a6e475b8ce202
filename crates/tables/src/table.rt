ghost use Rattle.layout.specs.WellFormed.{WellFormed};
ghost use Rattle.declarations.specs.Held.{declared_in};

mod exits;
mod index;
mod lists;
mod read;
mod sessions;

use declarations::Declarations;

// A well-formed table, in fixed memory of the format's own limits. The fact is a ghost field and not a model's invariant,
// so that whoever holds a table has it, without a call.
#[derive(Drop)]
pub struct Table {
    declarations: Declarations,
    ghost sound: { ∥ WellFormed (declared_in declarations) ∥₁ },
}
