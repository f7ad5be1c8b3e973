// What is proved over every increment and every order. There is nothing to run: each contract holds a law, and without its proof the crate fails.
ghost use Rattle.wire.specs.Laws.{RoundingLaws, OrderLaws, ImageLaws};
ghost use Rattle.wire.specs.Examples.{Examples};

pub fn rounding_laws()
    ensures { RoundingLaws }
{}

#[tactic(auto, using(crate::proofs::Arrangements::order_laws))]
pub fn order_laws()
    ensures { OrderLaws }
{}

#[tactic(auto, using(crate::proofs::Arrangements::image_laws))]
pub fn image_laws()
    ensures { ImageLaws }
{}

pub fn worked_examples()
    ensures { Examples }
{}
