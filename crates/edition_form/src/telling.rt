// Which lines are told, against those that were shown at the cut before.
ghost use Rattle.std.specs.Prelude.{◌≡◌, ◌<◌, ◌≤◌, ◌+◌, ◌++◌, ◌⊎◌, Bool, true, false, not, if◌then◌else◌, length, drop, slice_index_or};
ghost use Rattle.std.specs.Option.{option_to_list};
ghost use Rattle.edition_form.specs.Lines.{are_of_one_track, ended_line};
ghost use Rattle.edition_form.specs.declared.lines.ShownLine.{ShownLine};
ghost use Rattle.edition_form.specs.Telling.{IsUnderway, told_old, is_first, left, old_first, past_now, past_old};

use crate::ShownLine;
use cat062_out::TrackLine;

/// How far two lists of lines were told.
#[derive(Clone, Copy, Debug)]
pub(crate) struct Told {
    /// How many of the old lines came before.
    pub old_count: usize,
    /// How many of the lines shown now came before.
    pub now_count: usize,
    /// Whether the track of the next line shown now is among the old lines that came before.
    pub known: bool,
}

impl Told {
    // The next line that is told, and how far both lists are told with it. Of old lines and lines
    // shown now the one with the lower number comes next, and of one number the old one, which is
    // told only where its track isn't shown now.
    pub(crate) fn next(&self, old: &[ShownLine], now: &[ShownLine]) -> (Option<TrackLine>, Told)
        requires told { IsUnderway old.now now.now self.now }
        requires some_left { (self.now.old_count < length old.now) ⊎ (self.now.now_count < length now.now) }
        ensures told { IsUnderway old.now now.now result.1 }
        ensures line { left old.now now.now self.now ≡ option_to_list result.0 ++ left old.now now.now result.1 }
        ensures further { result.1.old_count + result.1.now_count ≡ self.now.old_count + self.now.now_count + 1 }
    {
        if self.comes_old(old, now) {
            self.past_old(old, now)
        } else {
            self.past_now(now)
        }
    }

    // Whether an old line comes next.
    fn comes_old(&self, old: &[ShownLine], now: &[ShownLine]) -> bool
        ensures { result ≡ old_first (drop self.now.old_count old.now) (drop self.now.now_count now.now) }
    {
        self.old_count < old.len()
            && (self.now_count >= now.len()
                || old[self.old_count].number() <= now[self.now_count].number())
    }

    // The next old line: it is told unless its track is the next one that is shown now.
    fn past_old(&self, old: &[ShownLine], now: &[ShownLine]) -> (Option<TrackLine>, Told)
        requires { self.now.old_count < length old.now }
        ensures line { (d : ShownLine) → result.0 ≡ told_old (slice_index_or old.now self.now.old_count d) (drop self.now.now_count now.now) }
        ensures told { (d : ShownLine) → result.1 ≡ past_old self.now (slice_index_or old.now self.now.old_count d) (drop self.now.now_count now.now) }
    {
        let line = &old[self.old_count];
        let is_shown = self.comes_now(line, now);
        let next = Told {
            old_count: self.old_count + 1,
            now_count: self.now_count,
            known: self.known || is_shown,
        };
        (line.told_old(is_shown), next)
    }

    // Whether the track of a line is the next one that is shown now.
    fn comes_now(&self, line: &ShownLine, now: &[ShownLine]) -> bool
        ensures { result ≡ is_first line.now (drop self.now.now_count now.now) }
    {
        self.now_count < now.len() && line.is_of_track(&now[self.now_count])
    }

    // The next line that is shown now.
    fn past_now(&self, now: &[ShownLine]) -> (Option<TrackLine>, Told)
        requires { self.now.now_count < length now.now }
        ensures line { (d : ShownLine) → result.0 ≡ Some (record (slice_index_or now.now self.now.now_count d).line { first = not self.now.known; ended = false }) }
        ensures told { result.1 ≡ past_now self.now }
    {
        let next = Told {
            old_count: self.old_count,
            now_count: self.now_count + 1,
            known: false,
        };
        (Some(now[self.now_count].line_now(self.known)), next)
    }
}

impl ShownLine {
    // Its number.
    fn number(&self) -> u16
        ensures { result ≡ self.now.line.number }
    {
        self.line.number
    }

    // Whether both are of one track.
    fn is_of_track(&self, other: &ShownLine) -> bool
        ensures { result ≡ are_of_one_track self.now other.now }
    {
        self.line.number == other.line.number && self.birth.cmp(&other.birth).is_eq()
    }

    // What is told of an old line: the last line of its track, unless that is still shown.
    fn told_old(&self, is_shown: bool) -> Option<TrackLine>
        ensures { result ≡ (if is_shown then None else Some (ended_line self.now)) }
    {
        if is_shown {
            None
        } else {
            Some(self.ended_line())
        }
    }

    // The last line of a track that is shown no more.
    fn ended_line(&self) -> TrackLine
        ensures { result ≡ ended_line self.now }
    {
        let mut line = self.line;
        line.first = false;
        line.ended = true;
        line
    }

    // The line of a track that is shown now, and was shown before or not.
    fn line_now(&self, known: bool) -> TrackLine
        ensures { result ≡ record self.now.line { first = not known; ended = false } }
    {
        let mut line = self.line;
        line.first = !known;
        line.ended = false;
        line
    }
}
