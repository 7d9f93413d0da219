// The words of the commands, and of a line that is none.
pub(crate) const FORMAT: &[u8] = b"format";

pub(crate) const POWER: &[u8] = b"power";

pub(crate) const PUT: &[u8] = b"put";

pub(crate) const GET: &[u8] = b"get";

pub(crate) const COMMIT: &[u8] = b"commit";

pub(crate) const ABANDON: &[u8] = b"abandon";

pub(crate) const SYNC: &[u8] = b"sync";

pub(crate) const APPLY: &[u8] = b"apply";

pub(crate) const RECOVER: &[u8] = b"recover";

pub(crate) const CUT: &[u8] = b"cut";

pub(crate) const BAD: &[u8] = b"bad";
