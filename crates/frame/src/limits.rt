//! The numbers that bound a frame.

/// The version that is spoken.
pub const VERSION: u8 = 1;

/// The bytes before an argument, and so the shortest frame.
pub const HEAD_SIZE: usize = 6;

/// The longest frame, and the room that the writer asks for.
pub const LONGEST_FRAME: usize = 40;

/// The last dialogue number.
pub const LAST_DIALOGUE: u8 = 63;

/// The last invoke number.
pub const LAST_INVOKE: u8 = 127;

/// The last cause for which a call is released.
pub const LAST_CAUSE: u8 = 127;

/// The most ticks that a timer is set to.
pub const MOST_TICKS: u16 = 6000;

/// The most items in one frame.
pub const MOST_ITEMS: usize = 17;

/// The bytes of an item.
pub const ITEM_SIZE: usize = 2;
