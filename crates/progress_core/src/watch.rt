//! `Watch`: who hears how far work has come.
ghost use Rattle.progress_core.specs.Watches.{Watched};

/// A watcher. After each piece, long work tells its watcher, with a value of type `P`, how far the work has come.
/// `told` says how the watcher may change from one time to a later one.
pub trait Watch<P: Copy> {
    ghost told: { Self → Self → Type 0 };

    fn tell(&mut self, work: P)
        ensures { Watched told self.old self.new };
}

/// A watcher that tells nobody.
#[derive(Clone, Copy, Debug)]
pub struct Silent;

impl<P: Copy> Watch<P> for Silent {
    ghost use Rattle.std.specs.Prelude.{⊤};

    ghost told = { λ _ _. ⊤ };

    fn tell(&mut self, _work: P) {}
}
