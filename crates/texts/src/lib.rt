// Every name, long name and text: one constant pool and its starts, and the codes by which the crates above speak of
// them. Both are statics, which lie in one place and are lent: no caller copies them.
#![tactic(auto)]

ghost use Rattle.texts.specs.Promises.{Pool, Starts};

pub mod names;
pub mod pool;
pub mod rules;

// How many bytes the pool has, how many texts, and how many starts: one more, the pool's end.
pub const LENGTH: usize = pool::LENGTH;

pub const COUNT: usize = pool::COUNT;

pub const START_COUNT: usize = pool::START_COUNT;

pub fn pool_bytes() -> &'static [u8; LENGTH]
    ensures { Pool tt result.now }
{
    &pool::POOL
}

pub fn text_starts() -> &'static [u16; START_COUNT]
    ensures { Starts tt result.now }
{
    &pool::STARTS
}
