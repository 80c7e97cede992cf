// The list moves of the step list, by their reasons. The pops in one phase do the same work, and so do the pushes; the
// reason says on which list, and what follows.

// The pops: of the class's partial list (allocate, step 2), of a spare descriptor (step 5), of a spare region (step 6).
#[derive(Clone, Copy)]
pub enum Pop {
    Partial,
    Spare,
    Region,
}

// The pushes: of a descriptor found EMPTY (allocate, step 3), of a descriptor for which there is no region (step 6), of
// a region that has emptied (free, step 4), of a descriptor that was FULL (step 5).
#[derive(Clone, Copy)]
pub enum Push {
    Retire,
    Back,
    Release,
    Offer,
}
