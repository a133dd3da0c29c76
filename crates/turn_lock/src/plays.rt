// What each step on the table tells the seat that makes it.
ghost use Rattle.turn_lock.specs.Steps.{peeked, drew, looked, committed, raised, passed, refreshed, giver, given, both, spent};

use crate::logged::Logged;
use crate::rule::View;
use atomic_table::{Join, Play, Split};

pub(crate) struct Peek;

impl<V: Logged> Play<V, View<V::Event, V::Base>> for Peek {
    ghost then = { peeked };
}

pub(crate) struct Draw;

impl<V: Logged> Play<V, View<V::Event, V::Base>> for Draw {
    ghost then = { drew };
}

pub(crate) struct Look;

impl<V: Logged> Play<V, View<V::Event, V::Base>> for Look {
    ghost then = { looked V.events V.is_publish V.base };
}

pub(crate) struct Commit;

impl<V: Logged> Play<V, View<V::Event, V::Base>> for Commit {
    ghost then = { committed V.events V.is_publish };
}

pub(crate) struct Raise;

impl<V: Logged> Play<V, View<V::Event, V::Base>> for Raise {
    ghost then = { raised };
}

pub(crate) struct Pass;

impl<V: Logged> Play<V, View<V::Event, V::Base>> for Pass {
    ghost then = { passed };
}

pub(crate) struct Refresh;

impl<V: Logged> Play<V, View<V::Event, V::Base>> for Refresh {
    ghost then = { refreshed V.is_publish };
}

pub(crate) struct GiveAway;

impl<E, B> Split<View<E, B>> for GiveAway {
    ghost left = { giver };

    ghost right = { given };
}

pub(crate) struct TakeIn;

impl<E, B> Join<View<E, B>> for TakeIn {
    ghost both = { both };

    ghost spent = { spent };
}
