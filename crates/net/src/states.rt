// A triangle inside one side, as Up or Down with its floor: its corners, and the path to it.
ghost use Rattle.std.specs.Prelude.{◌≡◌, ◌^◌, ◌≤◌};
ghost use Rattle.net.specs.Sides.{OneToThree};
ghost use Rattle.net.specs.Means.States.{point_of, parity, last_of, halves, Low};
ghost use Rattle.net.specs.Means.Paths.{path_up};

use crate::{Point, State};

impl State {
    // Which child of its parent it is: the parities of the floor tell.
    fn last_digit(self) -> u64
        requires { Low (2 ^ 24) self }
        ensures { result ≡ last_of self }
    {
        match self {
            State::Up(x, y, _) => digit_by(x % 2, y % 2),
            State::Down(x, y, _) => digit_by((x + 1) % 2, (y + 1) % 2),
        }
    }

    // The triangle of which it is the child with digit d.
    fn parent(self, d: u64) -> State
        ensures { result ≡ halves d self }
    {
        match self {
            State::Up(x, y, z) => {
                if d == 0 {
                    return State::Down(x / 2, y / 2, z / 2);
                }
                State::Up(x / 2, y / 2, z / 2)
            }
            State::Down(x, y, z) => {
                if d == 0 {
                    return State::Up(x / 2, y / 2, z / 2);
                }
                State::Down(x / 2, y / 2, z / 2)
            }
        }
    }

    // The weights of corner i on the side's three corners.
    pub fn corner(self, i: u64) -> Point
        requires { OneToThree i × Low (2 ^ 24) self }
        ensures { result ≡ point_of i self }
    {
        match self {
            State::Up(x, y, z) => match i {
                1 => Point {
                    w1: x + 1,
                    w2: y,
                    w3: z,
                },
                2 => Point {
                    w1: x,
                    w2: y + 1,
                    w3: z,
                },
                _ => Point {
                    w1: x,
                    w2: y,
                    w3: z + 1,
                },
            },
            State::Down(x, y, z) => match i {
                1 => Point {
                    w1: x,
                    w2: y + 1,
                    w3: z + 1,
                },
                2 => Point {
                    w1: x + 1,
                    w2: y,
                    w3: z + 1,
                },
                _ => Point {
                    w1: x + 1,
                    w2: y + 1,
                    w3: z,
                },
            },
        }
    }

    // The path of the n digits that lead to it.
    pub fn path(self, n: u64) -> u64
        requires { (n ≤ 24) × Low (2 ^ 24) self }
        ensures { result ≡ path_up n self }
    {
        if n == 0 {
            return 0;
        }
        let d = self.last_digit();
        4 * self.parent(d).path(n - 1) + d
    }
}

fn digit_by(p: u64, q: u64) -> u64
    ensures { result ≡ parity p q }
{
    match p {
        0 => match q {
            0 => 3,
            _ => 2,
        },
        _ => match q {
            0 => 1,
            _ => 0,
        },
    }
}
