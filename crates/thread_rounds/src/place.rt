//! How far a worker has come.

use crate::share::Share;

/// Where a worker stands: so many passes are done, and the frame of this number is the next.
#[derive(Clone, Copy, Debug, PartialEq, Eq)]
pub struct Place {
    pub pass: u64,
    pub number: u64,
}

impl Place {
    ghost use Rattle.std.specs.Prelude.{◌≡◌, ◌+◌, ◌^◌, ◌<◌, ◌≤◌};
    ghost use Rattle.thread_rounds.specs.Dealt.{start, after};

    /// Where the worker of a share begins.
    pub(crate) fn start(share: Share) -> Place
        ensures { result ≡ start share }
    {
        Place {
            pass: 0,
            number: share.first,
        }
    }

    /// Where it is past the frame that is the next here, of so many frames.
    pub(crate) fn after(self, share: Share, count: u64) -> Place
        requires frame { self.number ≤ count }
        requires pass { self.pass + 1 < 2 ^ 64 }
        ensures place { result ≡ after share count self }
        ensures from_one { 0 < result.number }
    {
        if share.stride <= count - self.number {
            Place {
                pass: self.pass,
                number: self.number + share.stride,
            }
        } else {
            Place {
                pass: self.pass + 1,
                number: share.first,
            }
        }
    }
}
