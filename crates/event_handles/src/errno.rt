//! The numbers that C gets where a call is refused.

pub(crate) const ENOENT: i64 = -2;

pub(crate) const E2BIG: i64 = -7;

pub(crate) const EAGAIN: i64 = -11;

pub(crate) const ENOMEM: i64 = -12;

pub(crate) const EBUSY: i64 = -16;

pub(crate) const ENODEV: i64 = -19;

pub(crate) const EINVAL: i64 = -22;

pub(crate) const ENOSPC: i64 = -28;

pub(crate) const ENOBUFS: i64 = -105;

pub(crate) const ESHUTDOWN: i64 = -108;
