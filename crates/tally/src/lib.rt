// The tally of changes: a count for each kind, the bump, and how many changes there are.
#![tactic(auto)]

ghost use Rattle.std.specs.Prelude.{◌≡◌, ◌<◌, ◌≤◌};
ghost use Rattle.rules.specs.Changes.{kind_count};
ghost use Rattle.rules.specs.Verdict.{result_at};
ghost use Rattle.tally.specs.Tallies.{kind_number, level_of, larger, no_change, result_number, with_change};

// The kinds of change, in the order of compat.rs, each with its place among the counts; after them those of R-6 and R-10.
#[derive(Clone, Copy)]
pub enum ChangeKind {
    FieldAdded = 0,
    FieldRemoved = 1,
    FieldTypeChanged = 2,
    FieldOrdinalChanged = 3,
    FieldRenamed = 4,
    FieldDeprecated = 5,
    FieldEncodingChanged = 6,
    VariantAdded = 7,
    VariantRemoved = 8,
    VariantOrdinalChanged = 9,
    DeclarationAdded = 10,
    DeclarationRemoved = 11,
    DeclarationKindChanged = 12,
    NamespaceChanged = 13,
    NonExhaustiveChanged = 14,
    FlagsBitAdded = 15,
    FlagsBitRemoved = 16,
    FlagsBitOrdinalChanged = 17,
    WidthChanged = 18,
    TombstoneReused = 19,
    TombstoneDropped = 20,
}

impl ChangeKind {
    // Its place among the counts.
    pub fn place(self) -> usize
        ensures is { result ≡ kind_number self }
        ensures known { result < kind_count }
    {
        self as usize
    }
}

// How many kinds are counted.
pub const KINDS: usize = 21;

// The weight of a change, from the least to the largest.
#[derive(Clone, Copy)]
pub enum Bump {
    Patch = 0,
    Minor = 1,
    Major = 2,
}

impl Bump {
    pub const PATCH: Bump = Bump::Patch;

    pub const MINOR: Bump = Bump::Minor;

    pub const MAJOR: Bump = Bump::Major;

    // What C is told of it.
    pub fn level(self) -> u8
        ensures is { result ≡ level_of self }
        ensures known { result ≤ 2 }
    {
        self as u8
    }

    // The larger of two.
    pub fn larger(self, other: Bump) -> Bump
        ensures { result ≡ larger self other }
    {
        if self.level() < other.level() {
            return other;
        }
        self
    }

    // "the result (Breaking exactly at Major)"
    pub fn result(self) -> CompatResult
        ensures { result_number result ≡ result_at (level_of self) }
    {
        match self {
            Bump::Major => CompatResult::Breaking,
            _ => CompatResult::Compatible,
        }
    }
}

// Whether a new schema may be loaded where an old one runs.
#[derive(Clone, Copy)]
pub enum CompatResult {
    Compatible = 0,
    Breaking = 1,
}

impl CompatResult {
    // What C is told of it.
    pub fn number(self) -> u8
        ensures is { result ≡ result_number self }
        ensures known { result < 2 }
    {
        self as u8
    }
}

// What is known of the changes so far.
#[derive(Clone, Copy)]
pub struct Tally {
    pub counts: [u64; KINDS],
    pub bump: Bump,
    pub changes: usize,
}

impl Tally {
    // Of no change.
    pub fn empty() -> Tally
        ensures { result ≡ no_change }
    {
        Tally {
            counts: [0u64; KINDS],
            bump: Bump::PATCH,
            changes: 0,
        }
    }

    // With a change more. What is past the largest number is not counted, so that nothing is asked of what came before.
    #[tactic(auto, unfolding(crate::specs::Tallies::with_change))]
    pub fn with_change(self, kind: ChangeKind, bump: Bump) -> Tally
        ensures { result ≡ with_change self (kind_number kind) bump }
    {
        let mut counts = self.counts;
        let place = kind.place();
        counts[place] = counts[place].saturating_add(1);
        Tally {
            counts,
            bump: self.bump.larger(bump),
            changes: self.changes.saturating_add(1),
        }
    }
}
