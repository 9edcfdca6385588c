// How distances are listed.
ghost use Rattle.std.specs.Prelude.{◌≡◌, ◌<◌, [], ◌∷◌, ◌++◌, length};
ghost use Rattle.columns.specs.Numbers.{rising};
ghost use Rattle.lookback.specs.Distances.{listed};

use crate::distances::Distances;
use columns::numbers::Numbers;

impl Distances {
    // A distance goes behind the others.
    fn push(&mut self, distance: u8)
        requires { length (listed self.old) < 128 }
        ensures { listed self.new ≡ listed self.old ++ distance ∷ [] }
    {
        self.at[self.used] = distance;
        self.used += 1;
    }

    // The members of a set.
    pub(crate) fn of(near: Numbers) -> Distances
        ensures { listed result ≡ rising near }
    {
        let mut distances = Distances {
            at: [0; 128],
            used: 0,
        };
        for distance in near.members() {
            distances.push(distance);
        }
        distances
    }

    // The distances, one after another.
    pub(crate) fn as_slice(&self) -> &[u8]
        ensures { result.now ≡ listed self.now }
    {
        &self.at[..self.used]
    }
}
