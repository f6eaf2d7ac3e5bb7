// The declarations that may stand, those of a set's ids, by rising id, and after them those listed; and of them those that stand, by their
// names: "Of declarations with one name the last listed stands."
ghost use Rattle.std.specs.Prelude.{◌≤◌, length};

use crate::nearest::{is_nearer, name_of};
use parts::handles::{Decl, Image};

// What may stand in an image: with a set of its ids, none for the verdict of document 01, the reached ones for that with imports.
#[derive(Clone, Copy)]
pub struct Declarations<'a> {
    pub image: Image<'a>,
    pub reached: &'a [bool],
    pub ghost few: { length reached.now ≤ 512 },
}

impl<'a> Declarations<'a> {
    ghost use Rattle.std.specs.Prelude.{◌≡◌, ◌<◌};
    ghost use Rattle.std.specs.Option.{option_map};
    ghost use Rattle.parts.specs.Handles.{decl_of};
    ghost use Rattle.survivors.specs.Candidates.{candidates, Candidate};
    ghost use Rattle.survivors.specs.Answers.{standing_of, Survives, Follows, StandsAmong, namesake_in, names_covered};

    // How many positions there are.
    #[tactic(auto, using(crate::proofs::Laws::Candidates::counts))]
    pub fn count(self) -> usize
        ensures { result ≡ length (candidates self.entry) }
    {
        let listed = self.image.id_count();
        self.reached.len() + listed
    }

    // The declaration at a position: none, too, where the set does not have an id.
    #[tactic(auto, using(crate::proofs::Laws::Candidates::positions))]
    pub fn candidate(self, i: usize) -> Option<Decl<'a>>
        requires { i < length (candidates self) }
        ensures { Candidate self.entry i result }
    {
        let n = self.reached.len();
        if n <= i {
            return self.image.entry(self.image.id_at(i - n));
        }
        if !self.reached[i] {
            return None;
        }
        self.image.entry(i as u32)
    }

    // The declaration that stands under a name: "The search goes from the end and stops at the first match."
    #[tactic(auto, using(crate::proofs::Laws::Listed::backward, crate::proofs::Laws::Nearest::agreeing))]
    pub fn survivor(self, name: &[u8]) -> Option<Decl<'a>>
        ensures { Survives (standing_of self.entry) self.entry.image name.now result }
    {
        let mut i = self.count();
        'search: loop {
            if i == 0 {
                break None;
            }
            i -= 1;
            let Some(decl) = self.candidate(i) else {
                continue;
            };
            let own = decl.name();
            if name.len() == own.len() {
                let mut j = 0;
                loop {
                    if j == name.len() {
                        break 'search Some(decl);
                    }
                    if name[j] != own[j] {
                        break;
                    }
                    j += 1;
                }
            }
        }
    }

    // The declaration that stands under the least name past that of `after`, from the start if that is none: in a pass from the front that goes
    // over to a later one of the same name.
    #[tactic(auto, using(crate::proofs::Laws::Listed::forward))]
    pub fn following(self, after: Option<Decl<'a>>) -> Option<Decl<'a>>
        ensures { Follows (standing_of self.entry) self.entry.image after.entry result }
    {
        let n = self.count();
        let bound = name_of(after);
        let mut best = None;
        for i in 0..n {
            if let Some(found) = self.candidate(i) {
                let name = found.name();
                if is_nearer(bound, best, name) {
                    best = Some((name, found));
                }
            }
        }
        let (_, decl) = best?;
        Some(decl)
    }

    // The declarations that stand.
    pub fn standing(self) -> StandingDecls<'a>
        ensures { StandsAmong self.entry result }
    {
        StandingDecls {
            declarations: self,
            after: None,
        }
    }

    // Whether a declaration stands under the name of one, if there is one.
    #[tactic(auto, using(crate::proofs::Laws::Listed::namesakes))]
    fn has_namesake(self, found: Option<Decl<'_>>) -> bool
        ensures { result ≡ namesake_in (standing_of self.entry) (option_map decl_of found.entry) }
    {
        let Some(decl) = found else {
            return true;
        };
        self.survivor(decl.name()).is_some()
    }

    // Whether there are declarations under all names of what may stand here: far less than a walk by rising name.
    #[tactic(auto, using(crate::proofs::Laws::Listed::covering))]
    pub fn all_named(self, other: Declarations<'_>) -> bool
        ensures { result ≡ names_covered (standing_of other.entry) self.entry }
    {
        let n = self.count();
        for i in 0..n {
            if !other.has_namesake(self.candidate(i)) {
                return false;
            }
        }
        true
    }
}

// The declarations that stand, by rising name: those past that of `after`, from the start if that is none.
#[derive(Clone, Copy)]
pub struct StandingDecls<'a> {
    pub declarations: Declarations<'a>,
    pub after: Option<Decl<'a>>,
}

impl<'a> Iterator for StandingDecls<'a> {
    type Item = Decl<'a>;

    ghost use Rattle.std.specs.Iterator.{at_most};
    ghost use Rattle.survivors.specs.Answers.{decls_left, NextDecl};

    ghost next_gives = { NextDecl };

    ghost remaining = { λ w. at_most (decls_left w.declarations w.after) };

    #[tactic(auto, using(crate::proofs::Walks::decls_less))]
    fn next(&mut self) -> Option<Decl<'a>> {
        let decl = self.declarations.following(self.after)?;
        self.after = Some(decl);
        Some(decl)
    }
}
