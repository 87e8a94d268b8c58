//! The ids of the fields of the structs of `jaeger.thrift`.

/// The fields of a `Batch`.
pub mod batch {
    /// `process`.
    pub const PROCESS: i16 = 1;
    /// `spans`.
    pub const SPANS: i16 = 2;
    /// `seqNo`.
    pub const SEQ_NO: i16 = 3;
}

/// The fields of a `Process`.
pub mod process {
    /// `serviceName`.
    pub const SERVICE_NAME: i16 = 1;
    /// `tags`.
    pub const TAGS: i16 = 2;
}

/// The fields of a `Span`.
pub mod span {
    /// `traceIdLow`.
    pub const TRACE_ID_LOW: i16 = 1;
    /// `traceIdHigh`.
    pub const TRACE_ID_HIGH: i16 = 2;
    /// `spanId`.
    pub const SPAN_ID: i16 = 3;
    /// `parentSpanId`.
    pub const PARENT_SPAN_ID: i16 = 4;
    /// `operationName`.
    pub const OPERATION_NAME: i16 = 5;
    /// `references`.
    pub const REFERENCES: i16 = 6;
    /// `flags`.
    pub const FLAGS: i16 = 7;
    /// `startTime`.
    pub const START_TIME: i16 = 8;
    /// `duration`.
    pub const DURATION: i16 = 9;
    /// `tags`.
    pub const TAGS: i16 = 10;
    /// `logs`.
    pub const LOGS: i16 = 11;
}

/// The fields of a `SpanRef`.
pub mod reference {
    /// `refType`.
    pub const REF_TYPE: i16 = 1;
    /// `traceIdLow`.
    pub const TRACE_ID_LOW: i16 = 2;
    /// `traceIdHigh`.
    pub const TRACE_ID_HIGH: i16 = 3;
    /// `spanId`.
    pub const SPAN_ID: i16 = 4;
}

/// The fields of a `Log`.
pub mod log {
    /// `timestamp`.
    pub const TIMESTAMP: i16 = 1;
    /// `fields`.
    pub const FIELDS: i16 = 2;
}

/// The fields of a `Tag`.
pub mod tag {
    /// `key`.
    pub const KEY: i16 = 1;
    /// `vType`.
    pub const V_TYPE: i16 = 2;
    /// `vStr`.
    pub const V_STR: i16 = 3;
    /// `vDouble`.
    pub const V_DOUBLE: i16 = 4;
    /// `vBool`.
    pub const V_BOOL: i16 = 5;
    /// `vLong`.
    pub const V_LONG: i16 = 6;
    /// `vBinary`.
    pub const V_BINARY: i16 = 7;
}
