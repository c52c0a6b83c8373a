// How many words of each table the calls on the limiter and the peers are lent.
ghost use Rattle.std.specs.Prelude.{◌≤◌};

use crate::fields::Args;

// The words of the tables of keys, hot keys and shadows, and of peers, snapshot keys and contested
// keys; more than a table has stands for all of it.
#[derive(Clone, Copy)]
pub(crate) struct Lent {
    pub(crate) keys: usize,
    pub(crate) hot: usize,
    pub(crate) shadows: usize,
    pub(crate) peers: usize,
    pub(crate) snapshots: usize,
    pub(crate) contested: usize,
}

// All of every table.
pub(crate) fn whole() -> Lent {
    Lent {
        keys: usize::MAX,
        hot: usize::MAX,
        shadows: usize::MAX,
        peers: usize::MAX,
        snapshots: usize::MAX,
        contested: usize::MAX,
    }
}

// What a call says.
pub(crate) fn lent_of(args: Args) -> Lent {
    Lent {
        keys: args.first as usize,
        hot: args.second as usize,
        shadows: args.third as usize,
        peers: args.fourth as usize,
        snapshots: args.fifth as usize,
        contested: args.sixth as usize,
    }
}

// The first of a slice, so many of them, or all where there are fewer.
pub(crate) fn part<T>(items: &[T], n: usize) -> &[T] {
    &items[..n.min(items.len())]
}

pub(crate) fn part_mut<T>(items: &mut [T], n: usize) -> &mut [T] {
    let end = n.min(items.len());
    &mut items[..end]
}

// The words of so many entries of a width; there are 256 entries at most.
pub(crate) fn words_for(n: usize, width: usize) -> usize
    requires { width ≤ 4 }
{
    n.min(256) * width
}
