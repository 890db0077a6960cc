// Conditions as functions, each with one contract, and conditions on a number.
#![tactic(auto)]

ghost use Rattle.std.specs.Prelude.{◌≡◌};
ghost use Rattle.conditions.specs.Conditions.{both, either, within, outside};

// Both hold.
#[tactic(auto, unfolding(crate::specs::Conditions::both))]
pub fn both_hold(a: bool, b: bool) -> bool
    ensures { result ≡ both a b }
{
    a && b
}

// One of them holds, or both do.
#[tactic(auto, unfolding(crate::specs::Conditions::either))]
pub fn either_holds(a: bool, b: bool) -> bool
    ensures { result ≡ either a b }
{
    a || b
}

// x lies from `low` to `high`.
#[tactic(auto, unfolding(crate::specs::Conditions::both, crate::specs::Conditions::within))]
pub fn is_within(low: u32, x: u32, high: u32) -> bool
    ensures { result ≡ within low x high }
{
    low <= x && x <= high
}

// x lies below `low` or above `high`.
#[tactic(auto, unfolding(crate::specs::Conditions::outside))]
pub fn is_outside(low: u32, x: u32, high: u32) -> bool
    ensures { result ≡ outside low x high }
{
    x < low || high < x
}
