// One part of a pass: its forecast, and whether its outcome is known.
ghost use Rattle.std.specs.Prelude.{◌≡◌};
ghost use Rattle.plans.specs.Parts.{open_part, is_open, settled};

// Where a part stands: its outcome is not known yet, or it came up, or it came down.
#[derive(Clone, Copy, PartialEq, Eq, Debug)]
pub enum Standing {
    Open,
    Up,
    Down,
}

// A part that comes up with the chance `forecast`, where 2^30 stands for one.
// A settled part keeps the forecast that it had.
#[derive(Clone, Copy, PartialEq, Eq, Debug)]
pub struct Part {
    pub forecast: u32,
    pub standing: Standing,
}

impl Part {
    // An open part with this forecast.
    pub fn open(forecast: u32) -> Part
        ensures { result ≡ open_part forecast }
    {
        Part {
            forecast,
            standing: Standing::Open,
        }
    }

    // Whether the outcome is not known yet.
    pub fn is_open(&self) -> bool
        ensures { result ≡ is_open self.now.standing }
    {
        matches!(self.standing, Standing::Open)
    }

    // Writes the outcome down. No `From<bool>` for a standing: this would be its one use, and `from(up)` would not say which is up.
    pub fn settle(&mut self, up: bool)
        ensures { self.new ≡ settled up self.old }
    {
        self.standing = if up { Standing::Up } else { Standing::Down };
    }
}
