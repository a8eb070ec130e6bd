//! Fields that follow one another without a gap.
ghost use Rattle.std.specs.Prelude.{◌≡◌, ◌+◌, ◌*◌, ◌<◌, ◌≤◌, ◌^◌};
ghost use Rattle.vol_fields.specs.Runs.{AreCounted, one, array, spot_at, spot_in, total};

use crate::names::Name;

/// Fields of one name and size, one after the other.
#[derive(Clone, Copy)]
pub struct Run {
    /// The name of the fields.
    pub name: Name,
    /// The index of the first field.
    pub first: usize,
    /// The number of fields.
    pub count: usize,
    /// The size of each field in bytes.
    pub bytes: usize,
}

/// One field of a run, at its place.
#[derive(Clone, Copy)]
pub struct Spot {
    /// The name of the field.
    pub name: Name,
    /// The index of the field: a block number, an i-number, or a place in an array.
    pub index: usize,
    /// The byte at which the field begins.
    pub start: usize,
    /// The size of the field in bytes.
    pub bytes: usize,
}

impl Run {
    /// One field.
    pub(crate) const fn one(name: Name, index: usize, bytes: usize) -> Run
        ensures { result ≡ one name index bytes }
    {
        Run::array(name, index, 1, bytes)
    }

    /// An array of fields of one size.
    pub(crate) const fn array(name: Name, first: usize, count: usize, bytes: usize) -> Run
        ensures { result ≡ array name first count bytes }
    {
        Run {
            name,
            first,
            count,
            bytes,
        }
    }
}

/// Returns the field that has byte `n`, if the first of the runs begins at byte `base`.
pub(crate) fn spot_at(runs: &[Run], base: usize, n: usize) -> Spot
    requires after { base ≤ n }
    requires room { base + total runs.now < 2 ^ 64 }
    requires counted { AreCounted runs.now }
    ensures { result ≡ spot_at runs.now base n }
{
    let mut start = base;
    for run in runs {
        let size = run.count * run.bytes;
        if n - start < size {
            return spot_in(*run, start, n);
        }
        start += size;
    }
    Spot {
        name: Name::Past,
        index: n - start,
        start: n,
        bytes: 1,
    }
}

/// Returns the field of a run that has byte `n`, if the run begins at byte `start`.
fn spot_in(run: Run, start: usize, n: usize) -> Spot
    requires after { start ≤ n }
    requires within { n < start + run.count * run.bytes }
    requires counted { run.first + run.count ≤ 2 ^ 64 }
    ensures { result ≡ spot_in run start n }
{
    let index = (n - start) / run.bytes;
    Spot {
        name: run.name,
        index: run.first + index,
        start: start + index * run.bytes,
        bytes: run.bytes,
    }
}
