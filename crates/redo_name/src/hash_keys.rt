//! Names are hashed by SipHash-1-3 with random keys. The toolchain's default hash has a fixed seed, so names can be chosen to
//! collide. A name is one write to the hash, without its length, because a table holds only names. This makes SipHash-1-3 as
//! fast as the default hash was, which was given one byte at a time.
use std::hash::{BuildHasher, DefaultHasher, RandomState};
use std::random::RandomSource;

/// The keys with which names are hashed, stored as the initial state of a hasher. If the keys are random, nobody can
/// choose names that collide in a table, which would make its look-ups slow. The results of a table don't depend on the
/// keys.
#[derive(Clone, Copy)]
pub struct HashKeys {
    hasher: DefaultHasher,
}

impl HashKeys {
    /// Returns keys that are the same in every run.
    pub fn fixed() -> HashKeys {
        HashKeys {
            hasher: DefaultHasher::new(),
        }
    }

    /// Returns random keys from the system, or the fixed keys if the system provides none.
    pub fn random(rt: &impl RandomSource) -> HashKeys {
        match RandomState::new(rt) {
            Ok(state) => HashKeys {
                hasher: state.build_hasher(),
            },
            Err(_) => HashKeys::fixed(),
        }
    }
}

impl BuildHasher for HashKeys {
    type Hasher = DefaultHasher;

    ghost build_hasher = { λ keys. keys.hasher };

    fn build_hasher(&self) -> DefaultHasher {
        self.hasher
    }
}
