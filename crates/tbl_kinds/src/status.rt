/// The number that answers a request. 0 is success, 1 to 15 inform, 16 to 31 warn, and 32 and above refuse.
#[derive(Clone, Copy, Debug, PartialEq, Eq)]
pub struct Status(pub u32);

impl Status {
    pub const SUCCESS: Status = Status(0);

    pub const INFO_UPDATED: Status = Status(1);

    pub const INFO_RECOVERED_TBL: Status = Status(2);

    pub const INFO_UPDATE_PENDING: Status = Status(3);

    pub const INFO_VALIDATION_PENDING: Status = Status(4);

    pub const INFO_DUMP_PENDING: Status = Status(5);

    pub const INFO_NO_UPDATE_PENDING: Status = Status(6);

    pub const INFO_NO_VALIDATION_PENDING: Status = Status(7);

    pub const INFO_NO_DUMP_PENDING: Status = Status(8);

    pub const INFO_TABLE_LOCKED: Status = Status(9);

    pub const INFO_STOPPED: Status = Status(10);

    pub const INFO_CDS_EXISTS: Status = Status(11);

    pub const WARN_DUPLICATE: Status = Status(16);

    pub const WARN_NOT_CRITICAL: Status = Status(17);

    pub const ERR_BAD_APP: Status = Status(32);

    pub const ERR_INVALID_HANDLE: Status = Status(33);

    pub const ERR_NO_ACCESS: Status = Status(34);

    pub const ERR_UNREGISTERED: Status = Status(35);

    pub const ERR_INVALID_NAME: Status = Status(36);

    pub const ERR_INVALID_SIZE: Status = Status(37);

    pub const ERR_INVALID_OPTIONS: Status = Status(38);

    pub const ERR_NO_VALIDATOR: Status = Status(39);

    pub const ERR_DUPLICATE_NOT_OWNED: Status = Status(40);

    pub const ERR_DUPLICATE_DIFF_SIZE: Status = Status(41);

    pub const ERR_REGISTRY_FULL: Status = Status(42);

    pub const ERR_HANDLES_FULL: Status = Status(43);

    pub const ERR_DUMP_ONLY: Status = Status(44);

    pub const ERR_LOAD_IN_PROGRESS: Status = Status(45);

    pub const ERR_FILE_NOT_FOUND: Status = Status(46);

    pub const ERR_NO_STD_HEADER: Status = Status(47);

    pub const ERR_BAD_CONTENT_ID: Status = Status(48);

    pub const ERR_BAD_SUBTYPE_ID: Status = Status(49);

    pub const ERR_NO_TBL_HEADER: Status = Status(50);

    pub const ERR_LOAD_INCOMPLETE: Status = Status(51);

    pub const ERR_FILE_TOO_LARGE: Status = Status(52);

    pub const ERR_FILE_FOR_WRONG_TABLE: Status = Status(53);

    pub const ERR_PARTIAL_LOAD: Status = Status(54);

    pub const ERR_ZERO_LOAD: Status = Status(55);

    pub const ERR_PAST_END: Status = Status(56);

    pub const ERR_NO_BUFFER_AVAIL: Status = Status(57);

    pub const ERR_VALIDATION_FAILED: Status = Status(58);

    pub const ERR_ALREADY_PINNED: Status = Status(59);

    pub const ERR_NEVER_LOADED: Status = Status(60);

    pub const ERR_NOT_PINNED: Status = Status(61);

    pub const ERR_OUT_OF_RANGE: Status = Status(62);

    pub const ERR_NOT_DUMP_ONLY: Status = Status(63);

    pub const ERR_NO_SUCH_TABLE: Status = Status(64);

    pub const ERR_NO_LOAD: Status = Status(65);

    pub const ERR_NOT_VALIDATED: Status = Status(66);

    pub const ERR_UPDATE_PENDING: Status = Status(67);

    pub const ERR_VALIDATION_PENDING: Status = Status(68);

    pub const ERR_VALIDATIONS_FULL: Status = Status(69);

    pub const ERR_DUMP_PENDING: Status = Status(70);

    pub const ERR_DRAWER_FULL: Status = Status(71);

    pub const ERR_BAD_SELECT: Status = Status(72);

    pub const ERR_CDS_NOT_FOUND: Status = Status(73);

    pub const ERR_TABLE_ACTIVE: Status = Status(74);

    pub const ERR_CDS_NO_ROOM: Status = Status(75);

    pub const ERR_CDS_FAULT: Status = Status(76);

    pub const ERR_CDS_TORN: Status = Status(77);

    pub const ERR_NOTICE_ID: Status = Status(78);

    pub const ERR_APP_RUNNING: Status = Status(79);

    pub const ERR_BAD_PACKET: Status = Status(80);

    pub const ERR_BAD_MESSAGE_ID: Status = Status(81);

    pub const ERR_BAD_CODE: Status = Status(82);

    pub const ERR_BAD_LENGTH: Status = Status(83);

    pub const ERR_BAD_NAME: Status = Status(84);

    pub const ERR_BOOT_FAULT: Status = Status(85);

    pub const ERR_IMAGE_SIZE: Status = Status(86);

    pub const ERR_BAD_SPACECRAFT_ID: Status = Status(87);

    pub const ERR_BAD_PROCESSOR_ID: Status = Status(88);
}
