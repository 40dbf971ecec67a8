//! `Kind`: how a call or a message looks.
ghost use Rattle.std.specs.Prelude.{◌≡◌};
ghost use Rattle.picture_core.specs.Shapes.{class_of, kind_of};

use crate::shade::Shade;

/// How a call or a message looks. A message has one of the first three kinds.
#[derive(Clone, Copy, Debug, PartialEq, Eq)]
pub enum Kind {
    /// A step that remains and isn't painted.
    Step,
    /// A step that remains and is painted, as a part of the future that is asked about.
    Future,
    /// A step that was taken back.
    Undone,
    /// A call that took a step back.
    Back,
    /// A call that was refused.
    Refused,
}

impl Kind {
    /// The kind of a step or a message with this `Shade`.
    pub fn of(shade: Shade) -> Kind
        ensures { result ≡ kind_of shade }
    {
        match shade {
            Shade::Remains => Kind::Step,
            Shade::Painted => Kind::Future,
            Shade::Undone => Kind::Undone,
        }
    }

    /// The value of the attribute `class` for shapes and words of this kind.
    pub fn class(self) -> &'static str
        ensures { result.now ≡ class_of self }
    {
        match self {
            Kind::Step => "step",
            Kind::Future => "future",
            Kind::Undone => "undone",
            Kind::Back => "back",
            Kind::Refused => "refused",
        }
    }
}
