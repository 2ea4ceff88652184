// Laws of the order.
ghost use Rattle.mich_term.specs.Laws.{OrderIsLawful, EqualOrderMeansEqual};

/// The order of values is total (Michelson reference, "COMPARE").
#[tactic(auto, using(crate::proofs::OrderLaws::lawful))]
pub fn order_is_lawful()
    ensures { OrderIsLawful }
{}

/// Two comparable values whose order is Equal are equal (Michelson reference, "COMPARE").
#[tactic(auto, using(crate::proofs::OrderLaws::equal))]
pub fn equal_order_means_equal()
    ensures { EqualOrderMeansEqual }
{}
