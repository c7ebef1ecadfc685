// Decodes the fields of each kind from a frame.
ghost use Rattle.std.specs.Prelude.{◌≡◌};
ghost use Rattle.packet.specs.Kinds.{attr_in, head_in, address64_in, tr_in, mem_in, read_request_in, count_in, cpl_in, inv_in, ic_in, prq_in, prs_in, body_in};

use packet::{
    Access, Attr, Body, Common, Completion, Form, Frame, Head, ITag, InvalidateCompletion,
    InvalidateRequest, MemoryRequest, Outcome, PageRequest, PrgIndex, PrgResponse, Tag,
    TranslationRequest,
};

fn attr(n: u8) -> Attr
    ensures { result ≡ attr_in n }
{
    Attr {
        ido: n / 4 % 2 == 1,
        relaxed: n / 2 % 2 == 1,
        nosnoop: n % 2 == 1,
    }
}

// Traffic Class, Attr and sender's ID.
pub(crate) fn head(f: Common) -> Head
    ensures { result ≡ head_in f }
{
    Head {
        tc: f.tc,
        attr: attr(f.attr),
        sender: f.sender,
    }
}

fn address64(f: Frame) -> u64
    ensures { result ≡ address64_in f }
{
    f.dword8 as u64 * 4294967296 + f.dword12 as u64
}

fn tr(f: Frame, a: u64) -> Body
    ensures { result ≡ tr_in f a }
{
    Body::Tr(TranslationRequest {
        tag: Tag(f.byte6),
        dwords: f.dwords,
        address: a / 4096 * 4096,
        nowrite: a % 2 == 1,
    })
}

fn mem(f: Frame, access: Access, a: u64) -> Body
    ensures { result ≡ mem_in f access a }
{
    Body::Mem(MemoryRequest {
        access,
        dwords: f.dwords,
        address: a / 4 * 4,
        translated: f.at == 2,
    })
}

fn read_request(f: Frame, a: u64) -> Body
    ensures { result ≡ read_request_in f a }
{
    if f.at == 1 {
        tr(f, a)
    } else {
        mem(f, Access::Read(Tag(f.byte6)), a)
    }
}

fn cpl(f: Frame, outcome: Outcome) -> Body
    ensures { result ≡ cpl_in f outcome }
{
    Body::Cpl(Completion {
        outcome,
        count: count(f),
        requester: (f.dword8 / 65536) as u16,
        tag: Tag((f.dword8 / 256 % 256) as u8),
        lower: (f.dword8 % 128) as u8,
    })
}

fn count(f: Frame) -> u16
    ensures { result ≡ count_in f }
{
    f.byte6 as u16 % 16 * 256 + f.byte7 as u16
}

fn inv(f: Frame) -> Body
    ensures { result ≡ inv_in f }
{
    Body::Inv(InvalidateRequest {
        itag: ITag(f.byte6 % 32),
        device: (f.dword8 / 65536) as u16,
        address: f.body / 4096 * 4096,
        sized: f.body / 2048 % 2 == 1,
    })
}

fn ic(f: Frame) -> Body
    ensures { result ≡ ic_in f }
{
    Body::Ic(InvalidateCompletion {
        device: (f.dword8 / 65536) as u16,
        cc: (f.dword8 % 8) as u8,
        vector: f.dword12,
    })
}

fn prq(a: u64) -> Body
    ensures { result ≡ prq_in a }
{
    Body::Prq(PageRequest {
        page: a / 4096 * 4096,
        index: PrgIndex((a / 8 % 512) as u16),
        last: a / 4 % 2 == 1,
        write: a / 2 % 2 == 1,
        read: a % 2 == 1,
    })
}

fn prs(f: Frame) -> Body
    ensures { result ≡ prs_in f }
{
    Body::Prs(PrgResponse {
        device: (f.dword8 / 65536) as u16,
        code: (f.dword8 / 4096 % 16) as u8,
        index: PrgIndex((f.dword8 % 512) as u16),
    })
}

// The body of a packet of form m.
#[tactic(auto, unfolding(packet::specs::Kinds::body_in))]
pub(crate) fn fields(m: Form, f: Frame) -> Body
    ensures { result ≡ body_in m f }
{
    match m {
        Form::Mrd32 => read_request(f, f.dword8 as u64),
        Form::Mrd64 => read_request(f, address64(f)),
        Form::Mwr32 => mem(f, Access::Write, f.dword8 as u64),
        Form::Mwr64 => mem(f, Access::Write, address64(f)),
        Form::CplNoData => cpl(f, Outcome::Status(f.byte6 / 32)),
        Form::CplData => cpl(f, Outcome::Data(f.dwords)),
        Form::InvReq => inv(f),
        Form::InvCpl => ic(f),
        Form::PageReq => prq(address64(f)),
        Form::PrgResp => prs(f),
    }
}
