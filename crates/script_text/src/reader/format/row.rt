//! The rows of the format: the members of the header and of the lines after it.

use crate::reader::format::member::Member;
use crate::reader::format::member_kind::MemberKind;
use crate::reader::format::name::Name;
use n1ql_value::limits::{
    MAX_BATCH, MAX_CLIENTS, MAX_ID_BYTES, MAX_KEYSPACE_BYTES, MAX_VBUCKETS, MAX_WORKERS,
};

pub(crate) static HEADER: [Member; 6] = [GSI, VBUCKETS, CLIENTS, KEYSPACE, WORKERS, BATCH];

pub(crate) static UPSERT: [Member; 4] = [C, DO, ID, DOC];

pub(crate) static DELETE: [Member; 3] = [C, DO, ID];

pub(crate) static DDL: [Member; 3] = [C, DO, Q];

pub(crate) static SCAN: [Member; 7] = [C, DO, INDEX, SPANS, CONSISTENCY, AT, WAIT];

pub(crate) static QUERY: [Member; 6] = [C, DO, Q, CONSISTENCY, AT, WAIT];

pub(crate) static CLIENT: [Member; 2] = [S, C];

pub(crate) static PROJECT: [Member; 3] = [S, VB, MAYBE_INDEX];

pub(crate) static DELIVER: [Member; 3] = [S, INDEX, PLACE];

pub(crate) static LOSE: [Member; 3] = [S, INDEX, PLACE];

pub(crate) static PUBLISH: [Member; 2] = [S, INDEX];

pub(crate) static REWIND: [Member; 3] = [S, TO, MAYBE_INDEX];

const GSI: Member = Member {
    name: Name::Gsi,
    kind: MemberKind::Whole { least: 1, most: 1 },
    needed: true,
};

const VBUCKETS: Member = Member {
    name: Name::Vbuckets,
    kind: MemberKind::Whole {
        least: 1,
        most: MAX_VBUCKETS as i64,
    },
    needed: true,
};

const CLIENTS: Member = Member {
    name: Name::Clients,
    kind: MemberKind::Whole {
        least: 1,
        most: MAX_CLIENTS as i64,
    },
    needed: true,
};

const KEYSPACE: Member = Member {
    name: Name::Keyspace,
    kind: MemberKind::Text {
        least: 1,
        most: MAX_KEYSPACE_BYTES,
    },
    needed: false,
};

const WORKERS: Member = Member {
    name: Name::Workers,
    kind: MemberKind::Whole {
        least: 0,
        most: MAX_WORKERS as i64,
    },
    needed: false,
};

const BATCH: Member = Member {
    name: Name::Batch,
    kind: MemberKind::Whole {
        least: 1,
        most: MAX_BATCH as i64,
    },
    needed: false,
};

const C: Member = Member {
    name: Name::C,
    kind: MemberKind::Client,
    needed: true,
};

const DO: Member = Member {
    name: Name::Do,
    kind: MemberKind::AnyText,
    needed: true,
};

const ID: Member = Member {
    name: Name::Id,
    kind: MemberKind::Text {
        least: 1,
        most: MAX_ID_BYTES,
    },
    needed: true,
};

const DOC: Member = Member {
    name: Name::Doc,
    kind: MemberKind::AnyValue,
    needed: true,
};

const Q: Member = Member {
    name: Name::Q,
    kind: MemberKind::AnyText,
    needed: true,
};

const INDEX: Member = Member {
    name: Name::Index,
    kind: MemberKind::AnyText,
    needed: true,
};

const SPANS: Member = Member {
    name: Name::Spans,
    kind: MemberKind::Spans,
    needed: false,
};

const CONSISTENCY: Member = Member {
    name: Name::Consistency,
    kind: MemberKind::Consistency,
    needed: false,
};

const AT: Member = Member {
    name: Name::At,
    kind: MemberKind::Demand,
    needed: false,
};

const WAIT: Member = Member {
    name: Name::Wait,
    kind: MemberKind::Flag,
    needed: false,
};

const S: Member = Member {
    name: Name::S,
    kind: MemberKind::AnyText,
    needed: true,
};

const VB: Member = Member {
    name: Name::Vb,
    kind: MemberKind::VBucket,
    needed: true,
};

const PLACE: Member = Member {
    name: Name::Place,
    kind: MemberKind::Place,
    needed: false,
};

const TO: Member = Member {
    name: Name::To,
    kind: MemberKind::Vector,
    needed: true,
};

const MAYBE_INDEX: Member = Member {
    name: Name::Index,
    kind: MemberKind::AnyText,
    needed: false,
};
