// Packets: Tag, ITag and PRG index, the seventeen refusals, the seven kinds, and the decoded
// header. The definitions in specs/ relate bytes and packets.
#![tactic(auto)]

ghost use Rattle.std.specs.Prelude.{◌≡◌, ◌≤◌};
ghost use Rattle.packet.specs.Numbers.{number_of};
ghost use Rattle.packet.specs.Forms.{dword_count, byte_enables, payload_offset};
ghost use Rattle.packet.specs.Kinds.{short_enough, even_and_short, codes_size, allowed_outcome, allowed_body};

// The Tag of an outstanding request.
#[derive(Clone, Copy)]
pub struct Tag(pub u8);

// The ITag of an Invalidate Request.
#[derive(Clone, Copy)]
pub struct ITag(pub u8);

// The index of a page request group.
#[derive(Clone, Copy)]
pub struct PrgIndex(pub u16);

// The seventeen refusals, in the order of their numbers.
#[derive(Clone, Copy)]
pub enum Refusal {
    BadLength = 1,
    UnsupportedKind = 2,
    PoisonedOrDigest = 3,
    ForbiddenValue = 4,
    OtherFunction = 5,
    Disabled = 6,
    NothingPending = 7,
    BadCompletion = 8,
    ITagInUse = 9,
    OtherAgent = 10,
    NoFreeTag = 11,
    BadArgument = 12,
    NoEntry = 13,
    NoPermission = 14,
    PagesNotOn = 15,
    NoCreditOrGroupWaits = 16,
    BufferTooShort = 17,
}

// The three Attr bits: ID-based ordering, Relaxed Ordering and No Snoop.
#[derive(Clone, Copy)]
pub struct Attr {
    pub ido: bool,
    pub relaxed: bool,
    pub nosnoop: bool,
}

// The fields that every kind has: Traffic Class, Attr and the sender's ID.
#[derive(Clone, Copy)]
pub struct Head {
    pub tc: u8,
    pub attr: Attr,
    pub sender: u16,
}

// Here and below, `dwords` is the Length field: a count of DWORDs, where 0 means 1024.
#[derive(Clone, Copy)]
pub struct TranslationRequest {
    pub tag: Tag,
    pub dwords: u16,
    pub address: u64,
    pub nowrite: bool,
}

// A write has no Tag.
#[derive(Clone, Copy)]
pub enum Access {
    Read(Tag),
    Write,
}

// `translated` is AT 10; otherwise AT is 00.
#[derive(Clone, Copy)]
pub struct MemoryRequest {
    pub access: Access,
    pub dwords: u16,
    pub address: u64,
    pub translated: bool,
}

// Data with this Length and status 000, or a status and no data.
#[derive(Clone, Copy)]
pub enum Outcome {
    Data(u16),
    Status(u8),
}

#[derive(Clone, Copy)]
pub struct Completion {
    pub outcome: Outcome,
    pub count: u16,
    pub requester: u16,
    pub tag: Tag,
    pub lower: u8,
}

// Address and S as they are in the body. Together they encode the size.
#[derive(Clone, Copy)]
pub struct InvalidateRequest {
    pub itag: ITag,
    pub device: u16,
    pub address: u64,
    pub sized: bool,
}

#[derive(Clone, Copy)]
pub struct InvalidateCompletion {
    pub device: u16,
    pub cc: u8,
    pub vector: u32,
}

#[derive(Clone, Copy)]
pub struct PageRequest {
    pub page: u64,
    pub index: PrgIndex,
    pub last: bool,
    pub write: bool,
    pub read: bool,
}

#[derive(Clone, Copy)]
pub struct PrgResponse {
    pub device: u16,
    pub code: u8,
    pub index: PrgIndex,
}

// The seven kinds.
#[derive(Clone, Copy)]
pub enum Body {
    Tr(TranslationRequest),
    Mem(MemoryRequest),
    Cpl(Completion),
    Inv(InvalidateRequest),
    Ic(InvalidateCompletion),
    Prq(PageRequest),
    Prs(PrgResponse),
}

#[derive(Clone, Copy)]
pub struct Packet {
    pub head: Head,
    pub body: Body,
}

// The packet forms. Byte 0 selects one; for a message byte 7 does.
#[derive(Clone, Copy)]
pub enum Form {
    Mrd32,
    Mrd64,
    Mwr32,
    Mwr64,
    CplNoData,
    CplData,
    InvReq,
    InvCpl,
    PageReq,
    PrgResp,
}

// The values of the bits that mean the same in every kind. `attr` is Attr as a number of three
// bits, and `marks` is TD and EP.
#[derive(Clone, Copy)]
pub struct Common {
    pub tc: u8,
    pub attr: u8,
    pub marks: u8,
    pub sender: u16,
}

// A decoded header, with the body of an Invalidate Request. Fields have the values of the bytes. A
// field whose meaning depends on the kind is named by its position.
#[derive(Clone, Copy)]
pub struct Frame {
    pub byte0: u8,
    pub common: Common,
    pub at: u8,
    pub dwords: u16,
    pub byte6: u8,
    pub byte7: u8,
    pub dword8: u32,
    pub dword12: u32,
    pub body: u64,
}

// The number of a refusal in document 01. It is an operation of the card, and stays beside the cast.
pub fn number(r: Refusal) -> u8
    ensures { result ≡ number_of r }
{
    r as u8
}

// The number of DWORDs that a Length field stands for.
pub fn dword_count(dwords: u16) -> usize
    ensures { (result ≡ dword_count dwords) × (result ≤ 65535) }
{
    if dwords == 0 { 1024 } else { dwords as usize }
}

// The byte enables (byte 7) of a MEM packet of this Length.
pub fn byte_enables(dwords: u16) -> u8
    ensures { result ≡ byte_enables dwords }
{
    if dwords == 1 { 0x0F } else { 0xFF }
}

// The number of bytes before the payload.
pub fn payload_offset(m: Form) -> usize
    ensures { (result ≡ payload_offset m) × (result ≤ 24) }
{
    match m {
        Form::Mrd32 => 12,
        Form::Mrd64 => 16,
        Form::Mwr32 => 12,
        Form::Mwr64 => 16,
        Form::CplNoData => 12,
        Form::CplData => 12,
        Form::InvReq => 24,
        Form::InvCpl => 16,
        Form::PageReq => 16,
        Form::PrgResp => 16,
    }
}

// Is Length at most 32?
fn is_short(dwords: u16) -> bool
    ensures { result ≡ short_enough dwords }
{
    dword_count(dwords) <= 32
}

fn is_allowed_outcome(o: Outcome) -> bool
    ensures { result ≡ allowed_outcome o }
{
    match o {
        Outcome::Data(dwords) => is_short(dwords),
        Outcome::Status(status) => status != 2,
    }
}

fn codes_size(address: u64, sized: bool) -> bool
    ensures { result ≡ codes_size address sized }
{
    !sized || address / 4096 != 0xF_FFFF_FFFF_FFFF
}

fn is_even_and_short(dwords: u16) -> bool
    ensures { result ≡ even_and_short dwords }
{
    dwords % 2 == 0 && is_short(dwords)
}

// Does no field have a forbidden value?
#[tactic(auto, unfolding(crate::specs::Kinds::allowed_body))]
pub fn is_allowed(tc: u8, body: Body) -> bool
    ensures { result ≡ allowed_body tc body }
{
    match body {
        Body::Tr(t) => is_even_and_short(t.dwords),
        Body::Mem(m) => is_short(m.dwords),
        Body::Cpl(c) => is_allowed_outcome(c.outcome),
        Body::Inv(i) => codes_size(i.address, i.sized),
        Body::Ic(_) => true,
        Body::Prq(_) => tc == 0,
        Body::Prs(_) => tc == 0,
    }
}
