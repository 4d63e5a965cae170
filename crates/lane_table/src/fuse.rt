ghost use Rattle.std.specs.Prelude.{◌≡◌, true, false, None, Some};
ghost use Rattle.lane_table.specs.Fuse.{Fell, Burnt, of_left};

/// How many steps a lane may still make, if that is set. Each step takes one.
#[derive(Clone, Copy, Debug, PartialEq, Eq)]
pub struct Fuse {
    pub set: bool,
    pub left: u64,
}

impl Fuse {
    /// A fuse of this many steps, or one that is never spent.
    pub fn of(steps: Option<u64>) -> Fuse
        ensures { of_left result ≡ steps }
    {
        match steps {
            Some(left) => Fuse { set: true, left },
            None => Fuse {
                set: false,
                left: 0,
            },
        }
    }

    /// The steps that are left.
    pub fn left(self) -> Option<u64>
        ensures { result ≡ of_left self }
    {
        if self.set { Some(self.left) } else { None }
    }

    /// Takes one step from it. False if none is left.
    #[inline]
    pub fn spend(&mut self) -> bool
        ensures made { result ≡ true → Fell 1 self.old self.new }
        ensures spent { result ≡ false → Burnt 0 self.old self.new }
    {
        if !self.set {
            return true;
        }
        if self.left == 0 {
            return false;
        }
        self.left -= 1;
        true
    }
}
