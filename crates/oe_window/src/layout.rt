// Runs of one length at regular distances.
ghost use Rattle.std.specs.Prelude.{◌≡◌, ◌<◌};
ghost use Rattle.oe_window.specs.Layouts.{Covers, Fits, IsBox, first_of_run, run_count};

/// How many indices a box or a cube has along each dimension.
#[derive(Clone, Copy)]
pub(crate) struct Sides {
    pub(crate) t: u64,
    pub(crate) bands: u64,
    pub(crate) y: u64,
    pub(crate) x: u64,
}

/// How many steps there are along one dimension, and how far each leads.
#[derive(Clone, Copy)]
pub(crate) struct Axis {
    pub(crate) count: u64,
    pub(crate) stride: u64,
}

const ONE_STEP: Axis = Axis {
    count: 1,
    stride: 0,
};

/// Runs of one length, whose first numbers stand at regular distances.
#[derive(Clone, Copy)]
pub(crate) struct Layout {
    pub(crate) first: u64,
    pub(crate) length: u64,
    pub(crate) t: Axis,
    pub(crate) bands: Axis,
    pub(crate) y: Axis,
}

impl Layout {
    /// The runs of a box in a cube. Where a side of the box is the cube's, the runs along it touch and are one.
    pub(crate) fn of(first: u64, sides: Sides, cube: Sides) -> Layout
        requires { IsBox first sides cube }
        ensures { Covers first sides cube result }
    {
        let plane = cube.y * cube.x;
        let volume = cube.bands * plane;
        let t = Axis {
            count: sides.t,
            stride: volume,
        };
        let bands = Axis {
            count: sides.bands,
            stride: plane,
        };
        let y = Axis {
            count: sides.y,
            stride: cube.x,
        };
        if sides.x < cube.x {
            Layout {
                first,
                length: sides.x,
                t,
                bands,
                y,
            }
        } else if sides.y < cube.y {
            Layout {
                first,
                length: sides.y * cube.x,
                t,
                bands,
                y: ONE_STEP,
            }
        } else if sides.bands < cube.bands {
            Layout {
                first,
                length: sides.bands * plane,
                t,
                bands: ONE_STEP,
                y: ONE_STEP,
            }
        } else {
            Layout {
                first,
                length: sides.t * volume,
                t: ONE_STEP,
                bands: ONE_STEP,
                y: ONE_STEP,
            }
        }
    }

    /// No runs.
    pub(crate) fn empty() -> Layout
        ensures fits { Fits result }
        ensures none { run_count result ≡ 0 }
    {
        Layout {
            first: 0,
            length: 1,
            t: Axis {
                count: 0,
                stride: 0,
            },
            bands: ONE_STEP,
            y: ONE_STEP,
        }
    }

    /// How many runs there are.
    pub(crate) fn count(&self) -> u64
        requires { Fits self.now }
        ensures { result ≡ run_count self.now }
    {
        self.t.count * self.bands.count * self.y.count
    }

    /// The first number of the run of a number.
    pub(crate) fn first_of_run(&self, number: u64) -> u64
        requires fits { Fits self.now }
        requires number { number < run_count self.now }
        ensures { result ≡ first_of_run self.now number }
    {
        let plane = number / self.y.count;
        let along_t = plane / self.bands.count * self.t.stride;
        let along_bands = plane % self.bands.count * self.bands.stride;
        self.first + along_t + along_bands + number % self.y.count * self.y.stride
    }
}
