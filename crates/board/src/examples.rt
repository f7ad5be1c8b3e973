// The worked examples. The contract holds them, and without their proof the crate fails; the code only calls those of the wire.
ghost use Rattle.board.specs.Examples.{Examples};

pub fn worked_examples()
    ensures { Examples }
{
    wire::worked_examples()
}
