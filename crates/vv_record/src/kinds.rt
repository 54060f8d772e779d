//! The numbers of the kinds of events.

pub(crate) const MAKE_CONTAINER: u8 = 0x01;

pub(crate) const MAKE_VOLUME: u8 = 0x02;

pub(crate) const DELETE_VOLUME: u8 = 0x03;

pub(crate) const GROW_VOLUME: u8 = 0x04;

pub(crate) const SET_METADATA: u8 = 0x05;

pub(crate) const SNAPSHOT: u8 = 0x06;

pub(crate) const FAST_CLONE: u8 = 0x07;

pub(crate) const REVERT: u8 = 0x08;

pub(crate) const WRITE: u8 = 0x09;

pub(crate) const UNMAP: u8 = 0x0a;

pub(crate) const SET_ENDPOINTS: u8 = 0x0b;

pub(crate) const BIND: u8 = 0x0c;

pub(crate) const UNBIND: u8 = 0x0d;

pub(crate) const UNBIND_ALL: u8 = 0x0e;

pub(crate) const START_CLONE: u8 = 0x0f;

pub(crate) const START_COPY: u8 = 0x10;

pub(crate) const TURN: u8 = 0x11;

pub(crate) const CANCEL: u8 = 0x12;
