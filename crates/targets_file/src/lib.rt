// A targets file, read (01, refusals 1 to 4), and the image of a path in it: one pass over its images does both. The search for the path
// stops at the first name that is not smaller (02, A2).
#![tactic(auto)]

ghost use Rattle.std.specs.Prelude.{◌≡◌, IsSome};
ghost use Rattle.std.specs.Option.{option_map, IfSome};
ghost use Rattle.lookup.specs.Place.{Reads};
ghost use Rattle.rules.specs.Limits.{digest_size};
ghost use Rattle.rules.specs.Forms.{sha256, images as images_form};
ghost use Rattle.rules.specs.State.{kept, targets_in};
ghost use Rattle.forms.specs.View.{undone_at, HexAt};
ghost use Rattle.forms.specs.Member.{TakesMust, ReadsMust};
ghost use Rattle.envelope.specs.Open.{view_read};
ghost use Rattle.targets_file.specs.Plain.{PlainLength};
ghost use Rattle.targets_file.specs.Pass.{OneMore};
ghost use Rattle.targets_file.specs.View.{ReadsImage, ReadsNamed, FindsImage, listing_in, view_listing, seen, view_seen};

use date::Time;
use envelope::{Fault, Signed};
use lookup::{Member, Spanned};
use records::Id;
use std::cmp::Ordering;

// ---- An image

// An image: its length, and where the digits of its digest stand. Of most images no more is asked than their form.
#[derive(Clone, Copy)]
pub struct ImageAt {
    pub length: u64,
    pub digest: usize,
}

// The image at `at` if it has no members but "hashes" and "length", and no hash but "sha256". Names rise, so that it has one text only:
// {"hashes":{"sha256":"digits"},"length":number}.
fn plain_image(s: &[u8], at: usize) -> Option<Spanned<ImageAt>>
    ensures { IsSome result → ReadsImage s.now at result }
{
    let opening = b"{\"hashes\":{\"sha256\":\"";
    let between = b"\"},\"length\":";
    if !base::has_at(s, at, opening) {
        return None;
    }
    let digest = at + opening.len();
    if !forms::has_digits(s, digest, records::DIGEST) {
        return None;
    }
    let e = digest + records::DIGEST * 2;
    if !base::has_at(s, e, between) {
        return None;
    }
    let (length, past) = plain_length(s, e + between.len())?;
    Some(Spanned {
        value: ImageAt { length, digest },
        end: Some(past),
    })
}

// Its length at `at`, and the place past the closing brace.
fn plain_length(s: &[u8], at: usize) -> Option<(u64, usize)>
    ensures { IfSome result (λ r. PlainLength s.now at r.0 r.1) }
{
    let e = canonical_json::number(s, at, false)?;
    if s.len() <= e || s[e] != b'}' {
        return None;
    }
    let length = lookup::number_at(s, at, 0, records::MAX_LENGTH)?;
    Some((length, e + 1))
}

// Where the digits of the "sha256" of the hashes stand.
fn digest_place(s: &[u8], hashes: Option<usize>) -> Option<usize>
    ensures { TakesMust s.now hashes sha256 (undone_at s.now result) × HexAt digest_size s.now result }
{
    let found = lookup::find_member(s, hashes?, b"sha256");
    forms::digits_field(s, found, records::DIGEST)
}

// The image at `at`, whatever else it has: "length and hashes as above, both required".
fn walked_image(s: &[u8], at: usize) -> Option<Spanned<ImageAt>>
    ensures { ReadsImage s.now at result }
{
    let m = lookup::find_members(s, at, b"length", b"hashes", b"", b"");
    let length = forms::number_field(s, m.first, 0, records::MAX_LENGTH)?;
    let digest = digest_place(s, m.second)?;
    Some(Spanned {
        value: ImageAt { length, digest },
        end: m.end,
    })
}

// The member whose name is read at `i`, just past its opening quote, and whose value stands at `at`: "names of 1 to 128 bytes".
fn image_at(s: &[u8], i: usize, at: usize) -> Option<Spanned<ImageAt>>
    ensures { ReadsNamed s.now i at result }
{
    let name_length = lookup::text_len(s, i);
    if !(1..=records::MAX_PATH).contains(&name_length) {
        return None;
    }
    match plain_image(s, at) {
        Some(image) => Some(image),
        None => walked_image(s, at),
    }
}

// ---- The search for a path

// The image of the path.
#[derive(Clone, Copy)]
pub struct FoundImage {
    pub length: u64,
    pub digest: Id,
}

// What the search says so far: whether it is over, how many names it compared, and the image that it found.
#[derive(Clone, Copy)]
pub struct Search {
    pub over: bool,
    pub compared: usize,
    pub found: Option<FoundImage>,
}

// The digits of its digest are undone for the image that was asked for only.
fn found_image(s: &[u8], image: ImageAt) -> Option<FoundImage>
    ensures { FindsImage s.now image result }
{
    let digest = forms::id_in(s, image.digest)?;
    Some(FoundImage {
        length: image.length,
        digest,
    })
}

// One image more, the n-th, whose name is read at `i`. Names rise: the first that is not smaller than the path ends the search.
fn with_image(s: &[u8], search: Search, n: usize, i: usize, image: ImageAt, path: &[u8]) -> Search
    ensures { OneMore s.now path.now search n i image result }
{
    if search.over {
        return search;
    }
    match lookup::text_order(s, i, path) {
        Ordering::Less => Search {
            over: false,
            compared: n,
            found: None,
        },
        Ordering::Equal => Search {
            over: true,
            compared: n,
            found: found_image(s, image),
        },
        Ordering::Greater => Search {
            over: true,
            compared: n,
            found: None,
        },
    }
}

// ---- "targets"

// 0 to 256 images: what the search among them says. Each is read for its form, also after the search is over.
fn each_image(s: &[u8], at: usize, path: &[u8]) -> Option<Spanned<Search>>
    ensures { Reads view_listing s.now at (listing_in path.now images_form) result }
{
    let mut search = Search {
        over: false,
        compared: 0,
        found: None,
    };
    let mut n: usize = 0;
    let mut m = lookup::first_member(s, at);
    while let Member::At { name, value } = m {
        if records::MAX_TARGETS <= n {
            return None;
        }
        let image = image_at(s, name, value)?;
        n += 1;
        search = with_image(s, search, n, name, image.value, path);
        m = lookup::next_member_by(s, value, image.end);
    }
    let Member::End(e) = m else {
        return None;
    };
    Some(Spanned {
        value: search,
        end: Some(e),
    })
}

fn images_field(s: &[u8], found: Option<usize>, path: &[u8]) -> Option<Spanned<Search>>
    ensures { ReadsMust view_listing s.now found (listing_in path.now images_form) result }
{
    each_image(s, found?, path)
}

// ---- The file

// What is looked at in a targets file.
#[derive(Clone, Copy)]
pub struct TargetsSeen {
    pub version: u64,
    pub expires: Time,
    pub search: Search,
}

// The same, with the keyids of its entries; or the refusal.
pub fn read_targets(file: &[u8], path: &[u8]) -> Result<Signed<TargetsSeen>, Fault>
    ensures { view_read view_seen result ≡ kept (seen path.now) (targets_in file.now) }
{
    let opened = envelope::open_envelope(file)?;
    let found = lookup::find_member(file, opened.start, b"targets");
    let images = images_field(file, found, path).ok_or(Fault::BadForm)?;
    let body = lookup::extent_of(found, images.end);
    let header = envelope::header_at(file, opened.start, b"targets", body).ok_or(Fault::BadForm)?;
    if !header.known {
        return Err(Fault::OtherSpec);
    }
    Ok(Signed {
        signed: TargetsSeen {
            version: header.version,
            expires: header.expires,
            search: images.value,
        },
        entries: opened.entries,
    })
}
