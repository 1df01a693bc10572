//! The types of stream objects (MS-FSSHTTPB 2.2.1.5.1 and 2.2.1.5.2; those of file nodes are of MS-FSSHTTPD 2.2), by the
//! names that the standards give them. Definitions and code cite these; the numbers stand nowhere else.

/// Data element (MS-FSSHTTPB 2.2.1.12.1).
pub const DATA_ELEMENT: u16 = 0x01;

/// Object data BLOB.
pub const OBJECT_DATA_BLOB: u16 = 0x02;

/// Object group object BLOB data declaration.
pub const OBJECT_GROUP_OBJECT_BLOB_DATA_DECLARATION: u16 = 0x05;

/// Storage manifest root declare.
pub const STORAGE_MANIFEST_ROOT_DECLARE: u16 = 0x07;

/// Revision manifest root declare.
pub const REVISION_MANIFEST_ROOT_DECLARE: u16 = 0x0A;

/// Cell manifest current revision.
pub const CELL_MANIFEST_CURRENT_REVISION: u16 = 0x0B;

/// Storage manifest schema GUID.
pub const STORAGE_MANIFEST_SCHEMA_GUID: u16 = 0x0C;

/// Storage index revision mapping.
pub const STORAGE_INDEX_REVISION_MAPPING: u16 = 0x0D;

/// Storage index cell mapping.
pub const STORAGE_INDEX_CELL_MAPPING: u16 = 0x0E;

/// Cell knowledge range.
pub const CELL_KNOWLEDGE_RANGE: u16 = 0x0F;

/// Knowledge.
pub const KNOWLEDGE: u16 = 0x10;

/// Storage index manifest mapping.
pub const STORAGE_INDEX_MANIFEST_MAPPING: u16 = 0x11;

/// Cell knowledge.
pub const CELL_KNOWLEDGE: u16 = 0x14;

/// Data element package.
pub const DATA_ELEMENT_PACKAGE: u16 = 0x15;

/// Object group object data.
pub const OBJECT_GROUP_OBJECT_DATA: u16 = 0x16;

/// Cell knowledge entry.
pub const CELL_KNOWLEDGE_ENTRY: u16 = 0x17;

/// Object group object declare.
pub const OBJECT_GROUP_OBJECT_DECLARE: u16 = 0x18;

/// Revision manifest object group references.
pub const REVISION_MANIFEST_OBJECT_GROUP_REFERENCES: u16 = 0x19;

/// Revision manifest.
pub const REVISION_MANIFEST: u16 = 0x1A;

/// Object group object data BLOB reference.
pub const OBJECT_GROUP_OBJECT_DATA_BLOB_REFERENCE: u16 = 0x1C;

/// Object group declarations.
pub const OBJECT_GROUP_DECLARATIONS: u16 = 0x1D;

/// Object group data.
pub const OBJECT_GROUP_DATA: u16 = 0x1E;

/// Intermediate node, and leaf node (MS-FSSHTTPD 2.2).
pub const INTERMEDIATE_NODE: u16 = 0x1F;

/// Root node (MS-FSSHTTPD 2.2).
pub const ROOT_NODE: u16 = 0x20;

/// Signature of a node (MS-FSSHTTPD 2.2).
pub const SIGNATURE: u16 = 0x21;

/// Data size of a node (MS-FSSHTTPD 2.2).
pub const DATA_SIZE: u16 = 0x22;

/// Request.
pub const REQUEST: u16 = 0x40;

/// Sub-response.
pub const SUB_RESPONSE: u16 = 0x41;

/// Sub-request.
pub const SUB_REQUEST: u16 = 0x42;

/// Read access response.
pub const READ_ACCESS_RESPONSE: u16 = 0x43;

/// Specialized knowledge.
pub const SPECIALIZED_KNOWLEDGE: u16 = 0x44;

/// Write access response.
pub const WRITE_ACCESS_RESPONSE: u16 = 0x46;

/// Response error.
pub const RESPONSE_ERROR: u16 = 0x4D;

/// Query changes request.
pub const QUERY_CHANGES_REQUEST: u16 = 0x51;

/// HRESULT error.
pub const HRESULT_ERROR: u16 = 0x52;

/// Put changes request.
pub const PUT_CHANGES_REQUEST: u16 = 0x5A;

/// Query changes response.
pub const QUERY_CHANGES_RESPONSE: u16 = 0x5F;

/// Response.
pub const RESPONSE: u16 = 0x62;

/// Cell error.
pub const CELL_ERROR: u16 = 0x66;

/// Allocate extended GUID range request.
pub const ALLOCATE_EXTENDED_GUID_RANGE_REQUEST: u16 = 0x80;

/// Allocate extended GUID range response.
pub const ALLOCATE_EXTENDED_GUID_RANGE_RESPONSE: u16 = 0x81;
