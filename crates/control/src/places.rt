// The places of the step list, by number: those of specs/Places.antt. A move of a list has three in a row: its head
// read, its next and its exchange. The places of free's steps 2 to 5 are those of leaving, too.
pub const IDLE: u8 = 0;

// Allocate 1: the cache.
pub const A1: u8 = 1;

// Allocate 2, 5 and 6: pop of a partial descriptor, of a spare descriptor, of a spare region.
pub const POP_PARTIAL: u8 = 2;

pub const POP_SPARE: u8 = 5;

pub const POP_REGION: u8 = 8;

// Allocate 3 and 6: push of an EMPTY descriptor to the spares, push back of the descriptor, since there is no region.
pub const PUSH_RETIRE: u8 = 11;

pub const PUSH_BACK: u8 = 14;

// Free 4 and 5: push of the region to the spare regions, push of the descriptor to the partial list of its class.
pub const PUSH_RELEASE: u8 = 17;

pub const PUSH_OFFER: u8 = 20;

// Allocate 3: the anchor is read, and exchanged.
pub const A3_READ: u8 = 23;

pub const A3_EXCHANGE: u8 = 24;

// Allocate 4, 7 and 8: a block of the taken chain goes to the cache; descriptor, map and anchor of the new region; a
// block is carved.
pub const A4: u8 = 25;

pub const A7: u8 = 26;

pub const A8: u8 = 27;

// Free 1 and 2: the cache; one block of the group, or its closing.
pub const F1: u8 = 28;

pub const F2: u8 = 29;

// Free 3: the anchor is read, the group's last link is written, the anchor is exchanged.
pub const F3_READ: u8 = 30;

pub const F3_LINK: u8 = 31;

pub const F3_EXCHANGE: u8 = 32;

// Free 4: the map entry is cleared.
pub const F4_CLEAR: u8 = 33;

// A strip's request, to take and to free.
pub const STRIP_TAKE: u8 = 34;

pub const STRIP_GIVE: u8 = 35;

// Leaving: all caches are empty, and one further step finishes.
pub const LEAVE_END: u8 = 36;

// How many places there are, that of an idle task with them.
pub const PLACES: u8 = 37;

// The next and the exchange of a move are so many places past its head read.
pub const TO_NEXT: u8 = 1;

pub const TO_EXCHANGE: u8 = 2;
