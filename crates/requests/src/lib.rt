// A request for one point, its codes, and in specs/ what it means that a message holds it and that one is better than another
// (document 01, "When a message holds a request").
#![tactic(auto)]

mod codes;

pub use codes::{AreaWanted, Wanted};
use ground::{Millidegrees, Millimetres, Nanodegrees, PerCent, SignedMillimetres};

// A horizontal uncertainty. The two axes of a circle are its radius.
#[derive(Clone, Copy)]
pub enum Horizontal {
    Circle(Millimetres),
    Ellipse {
        semi_major: Millimetres,
        semi_minor: Millimetres,
        orientation: Millidegrees,
    },
    NotAsked,
}

// What is not asked is `None`.
#[derive(Clone, Copy)]
pub struct Request {
    pub latitude: Nanodegrees,
    pub longitude: Nanodegrees,
    pub altitude: Option<SignedMillimetres>,
    pub horizontal: Horizontal,
    pub altitude_uncertainty: Option<Millimetres>,
    pub confidence: Option<PerCent>,
}
