// The conditions of the check.

/// What a check asks of a certificate, in this order.
#[derive(Clone, Copy, Debug, PartialEq, Eq)]
pub enum Condition {
    /// A denominator is at least 1.
    Denominators,
    /// No amount is below 0.
    AmountSigns,
    /// Nothing is closed where it is not allowed.
    AllowedClosings,
    /// Each line is closed as its side asks.
    FullClosings,
    /// Closings are within the limits.
    Limits,
    /// Weighted closings are within the caps of the pools.
    Caps,
    /// No loss is above the stated one.
    Losses,
    /// Some loss is the stated one.
    WorstLoss,
    /// Each weight has its sign.
    WeightSigns,
    /// The scenario weights have their sum.
    WeightSum,
    /// Each allowed closing is charged the full weight of its line at least.
    Charges,
    /// The bound is the loss, or above 0 where the weights refuse.
    Bound,
}

impl Condition {
    ghost use Rattle.std.specs.Prelude.{◌≡◌};
    ghost use Rattle.core_model.specs.Conditions.{number_of};

    /// The number of a condition, 1 to 12.
    pub fn number(self) -> u8
        ensures { result ≡ number_of self }
    {
        match self {
            Condition::Denominators => 1,
            Condition::AmountSigns => 2,
            Condition::AllowedClosings => 3,
            Condition::FullClosings => 4,
            Condition::Limits => 5,
            Condition::Caps => 6,
            Condition::Losses => 7,
            Condition::WorstLoss => 8,
            Condition::WeightSigns => 9,
            Condition::WeightSum => 10,
            Condition::Charges => 11,
            Condition::Bound => 12,
        }
    }
}
