// Which addresses are points, and which points are disabled.
ghost use Rattle.std.specs.Prelude.{◌≡◌};
ghost use Rattle.slot_words.specs.Points.{valid_point, disabled};

#[tactic(auto, unfolding(conditions::specs::Conditions::both, conditions::specs::Conditions::within, crate::specs::Points::valid_point))]
pub fn is_valid_point(point: u32) -> bool
    ensures { result ≡ valid_point point }
{
    (1..=2147483646).contains(&point)
}

// By the point's value.
#[tactic(auto, unfolding(crate::specs::Points::disabled))]
pub fn is_disabled(value: u32) -> bool
    ensures { result ≡ disabled value }
{
    value % 2 == 1
}
