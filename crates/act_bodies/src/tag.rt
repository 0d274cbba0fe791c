//! The tag of each act: the byte after the caller, or after the pool where one is named.

pub(crate) const FIRM: u8 = 1;

pub(crate) const FILE: u8 = 2;

pub(crate) const CONFIRM: u8 = 3;

pub(crate) const DISPUTE: u8 = 4;

pub(crate) const WITHDRAW: u8 = 5;

pub(crate) const RECEIVE: u8 = 6;

pub(crate) const FUND: u8 = 7;

pub(crate) const DRAW: u8 = 8;

pub(crate) const LIMIT: u8 = 9;

pub(crate) const OFFER: u8 = 10;

pub(crate) const POSITION: u8 = 11;

pub(crate) const CLOSE: u8 = 12;

pub(crate) const ABANDON: u8 = 13;

pub(crate) const PUBLISH: u8 = 14;

/// The tag before the name of a pool, which no act has.
pub(crate) const POOL: u8 = 15;

/// That of a confirmation of a part, which names an amount. One of the whole names none: its tag is `CONFIRM`.
pub(crate) const AGREE: u8 = 16;
