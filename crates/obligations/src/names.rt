//! The names of the obligations.

ghost use Rattle.std.specs.Prelude.{◌≡◌, ◌≤◌, ◌↔◌, length, Some};
ghost use Rattle.obligations.specs.Names.{ob_names, ob_text};

/// An obligation by its name in the output.
#[derive(Clone, Copy)]
pub enum ObName {
    /// An idle core sees every overloaded one.
    B1,
    /// Only overloaded cores are victims.
    B2,
    /// The first move of a steal narrows the gap.
    B3,
    /// Each further move of a steal narrows the gap.
    B4,
    /// No two cases overlap where a thread comes to a core.
    H1Enqueue,
    /// The cases leave no gap there.
    H2Enqueue,
    /// No two cases overlap after a unit that isn't the last of its burst.
    H1Tick,
    /// The cases leave no gap there.
    H2Tick,
    /// No two cases overlap where a thread yields.
    H1Yield,
    /// The cases leave no gap there.
    H2Yield,
    /// No two cases overlap where a thread blocks.
    H1Block,
    /// The cases leave no gap there.
    H2Block,
}

/// The most bytes of a name.
pub const OB_NAME_ROOM: usize = 10;

/// The obligations in the order in which they are reported.
#[tactic(auto, unfolding(crate::specs::Names::ob_names))]
pub fn ob_names() -> &'static [ObName]
    ensures { result.now ≡ ob_names }
{
    &[
        ObName::B1,
        ObName::B2,
        ObName::B3,
        ObName::B4,
        ObName::H1Enqueue,
        ObName::H2Enqueue,
        ObName::H1Tick,
        ObName::H2Tick,
        ObName::H1Yield,
        ObName::H2Yield,
        ObName::H1Block,
        ObName::H2Block,
    ]
}

/// The obligation of that name, and none where no obligation has it.
pub fn ob_name(text: &str) -> Option<ObName>
    ensures { (name : ObName) → (result ≡ Some name) ↔ (ob_text name ≡ text.now) }
{
    match text {
        "B1" => Some(ObName::B1),
        "B2" => Some(ObName::B2),
        "B3" => Some(ObName::B3),
        "B4" => Some(ObName::B4),
        "H1.enqueue" => Some(ObName::H1Enqueue),
        "H2.enqueue" => Some(ObName::H2Enqueue),
        "H1.tick" => Some(ObName::H1Tick),
        "H2.tick" => Some(ObName::H2Tick),
        "H1.yield" => Some(ObName::H1Yield),
        "H2.yield" => Some(ObName::H2Yield),
        "H1.block" => Some(ObName::H1Block),
        "H2.block" => Some(ObName::H2Block),
        _ => None,
    }
}

impl ObName {
    /// The name as it is printed.
    pub fn text(self) -> &'static str
        ensures text { result.now ≡ ob_text self }
        ensures short { length result.now ≤ OB_NAME_ROOM }
    {
        match self {
            ObName::B1 => "B1",
            ObName::B2 => "B2",
            ObName::B3 => "B3",
            ObName::B4 => "B4",
            ObName::H1Enqueue => "H1.enqueue",
            ObName::H2Enqueue => "H2.enqueue",
            ObName::H1Tick => "H1.tick",
            ObName::H2Tick => "H2.tick",
            ObName::H1Yield => "H1.yield",
            ObName::H2Yield => "H2.yield",
            ObName::H1Block => "H1.block",
            ObName::H2Block => "H2.block",
        }
    }
}
