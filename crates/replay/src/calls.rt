// The calls on two images, by the verdict that they are of.

#[derive(Clone, Copy)]
pub struct Pair<'a> {
    pub old: &'a [u8],
    pub new: &'a [u8],
}

pub trait Verdict {
    // One value, by its selector.
    fn value(pair: Pair<'_>, selector: u64) -> u64;

    // All values; the number is returned.
    fn values(pair: Pair<'_>, out: &mut [u64]) -> u64;

    // The report; its length is returned.
    fn report(pair: Pair<'_>, out: &mut [u8]) -> u64;
}

// That of 01.
pub struct Plain;

impl Verdict for Plain {
    fn value(pair: Pair<'_>, selector: u64) -> u64 {
        vexil_compat::vexil_compat_verdict(pair.old, pair.new, selector)
    }

    fn values(pair: Pair<'_>, out: &mut [u64]) -> u64 {
        vexil_compat::vexil_compat_values(pair.old, pair.new, out)
    }

    fn report(pair: Pair<'_>, out: &mut [u8]) -> u64 {
        vexil_compat::vexil_compat_report(pair.old, pair.new, out)
    }
}

// The one with imports.
pub struct Imports;

impl Verdict for Imports {
    fn value(pair: Pair<'_>, selector: u64) -> u64 {
        vexil_compat::vexil_compat_imports_verdict(pair.old, pair.new, selector)
    }

    fn values(pair: Pair<'_>, out: &mut [u64]) -> u64 {
        vexil_compat::vexil_compat_imports_values(pair.old, pair.new, out)
    }

    fn report(pair: Pair<'_>, out: &mut [u8]) -> u64 {
        vexil_compat::vexil_compat_imports_report(pair.old, pair.new, out)
    }
}

// The mended one.
pub struct Mended;

impl Verdict for Mended {
    fn value(pair: Pair<'_>, selector: u64) -> u64 {
        vexil_compat::vexil_compat_mended_verdict(pair.old, pair.new, selector)
    }

    fn values(pair: Pair<'_>, out: &mut [u64]) -> u64 {
        vexil_compat::vexil_compat_mended_values(pair.old, pair.new, out)
    }

    fn report(pair: Pair<'_>, out: &mut [u8]) -> u64 {
        vexil_compat::vexil_compat_mended_report(pair.old, pair.new, out)
    }
}
