//! The parts that a smaller heap leaves out.

/// What a step leaves out.
#[derive(Clone, Copy, PartialEq, Eq)]
pub(crate) enum Part {
    /// Roots, by their indices.
    Roots,
    /// Live objects with their words, by their addresses. References to them become null.
    Objects,
    /// Regions with their words, by their numbers. Objects that lie in them are dead.
    Regions,
    /// Dead words below the end of the last live object, by their addresses.
    DeadWords,
    /// Words of live objects without their headers, by their addresses.
    Fields,
    /// References of live objects that aren't null, by their addresses: they become null.
    References,
    /// Live objects, by their addresses: they become dead words.
    Life,
    /// The region log.
    RegionLog,
    /// The binary digits of the allowance.
    Allowance,
}

impl Part {
    /// All parts, in the order of the steps.
    pub(crate) const ALL: [Part; 9] = [
        Part::Roots,
        Part::Objects,
        Part::Regions,
        Part::DeadWords,
        Part::Fields,
        Part::References,
        Part::Life,
        Part::RegionLog,
        Part::Allowance,
    ];
}
