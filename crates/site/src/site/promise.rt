ghost use Rattle.std.specs.Prelude.{List};
ghost use Rattle.clock.specs.Moments.{Moment};
ghost use Rattle.world.specs.World.{Event};
ghost use Rattle.world.specs.Promise.{Promise};
ghost use Rattle.site.specs.Led.{Led, first_of, run_of};

use crate::site::Site;

impl Site {
    /// Names the whole promise, of this site: all of it holds of every run that led here.
    pub fn keeps_promise(&self)
        ensures { (m : Moment) (es : List Event) → Led self.now m es → Promise (first_of self.now m) es (run_of self.now m es) }
    {}
}
