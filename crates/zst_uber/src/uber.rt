use crate::{MAGIC, VERSION};
use zst_block::{Ptr, put_sum};
use zst_bytes::{le32, le64, put_bytes, put32, put64};
use zst_fletcher::sum_of;

/// The body of a pool: what a commit makes the latest.
#[derive(Clone, Copy, PartialEq, Eq)]
pub struct Uber {
    /// The version of the image.
    pub version: u32,
    /// The id of the pool, from 1 to 2^31 - 1.
    pub id: u32,
    /// The number of the commit.
    pub number: u64,
    /// The guid counter.
    pub guids: u64,
    /// How many sectors the pool has.
    pub sectors: u64,
    /// The sector from which on all are free, at least 8.
    pub end: u64,
    /// The levels of the directory's tree, at most 7.
    pub dir_levels: u64,
    /// The length of the directory in bytes.
    pub dir_bytes: u64,
    /// The root of the directory.
    pub dir_root: Ptr,
    /// How many free extents there are below the end.
    pub free_count: u64,
    /// The levels of their tree, at most 7.
    pub free_levels: u64,
    /// The root of the free extents.
    pub free_root: Ptr,
}

impl Uber {
    ghost use Rattle.std.specs.Prelude.{◌≡◌, ◌↔◌, ◌^◌, ◌<◌, IsTrue, length};
    ghost use Rattle.zst_bytes.specs.Fields.{lay};
    ghost use Rattle.zst_uber.specs.Body.{body_bytes, number_fields, tree_fields, uber_at, UberFits, TreesFit, InRange};

    /// The 512 bytes of the body.
    #[tactic(auto, unfolding(crate::specs::Body::body_bytes, crate::specs::Body::front_bytes, zst_bytes::specs::Fields::zeros))]
    pub fn encode(&self) -> [u8; 512]
        ensures bytes { result ≡ body_bytes self.now }
        ensures fits { UberFits self.now }
    {
        let mut front = [0; 480];
        self.put_numbers(&mut front);
        self.put_trees(&mut front);
        let mut body = [0; 512];
        put_bytes(&mut body, 0, &front);
        put_sum(&mut body, 480, &sum_of(&front));
        body
    }

    fn put_numbers(&self, front: &mut [u8])
        requires { length front.old ≡ 480 }
        ensures bytes { front.new ≡ lay (number_fields self.now) front.old }
        ensures version { self.now.version < 2 ^ 32 }
        ensures id { self.now.id < 2 ^ 32 }
        ensures number { self.now.number < 2 ^ 64 }
        ensures guids { self.now.guids < 2 ^ 64 }
        ensures sectors { self.now.sectors < 2 ^ 64 }
        ensures end { self.now.end < 2 ^ 64 }
    {
        put64(front, 0, MAGIC);
        put32(front, 8, self.version);
        put32(front, 12, self.id);
        put64(front, 16, self.number);
        put64(front, 24, self.guids);
        put64(front, 32, self.sectors);
        put64(front, 40, self.end);
    }

    fn put_trees(&self, front: &mut [u8])
        requires { length front.old ≡ 480 }
        ensures bytes { front.new ≡ lay (tree_fields self.now) front.old }
        ensures fits { TreesFit self.now }
    {
        put64(front, 48, self.dir_levels);
        put64(front, 56, self.dir_bytes);
        self.dir_root.put(front, 64);
        put64(front, 128, self.free_count);
        put64(front, 136, self.free_levels);
        self.free_root.put(front, 144);
    }

    /// What the fields of a body say, whatever its version, ranges and sum.
    pub fn get(body: &[u8]) -> Uber
        requires { length body.now ≡ 512 }
        ensures fields { result ≡ uber_at body.now }
        ensures fits { UberFits result }
    {
        Uber {
            version: le32(body, 8),
            id: le32(body, 12),
            number: le64(body, 16),
            guids: le64(body, 24),
            sectors: le64(body, 32),
            end: le64(body, 40),
            dir_levels: le64(body, 48),
            dir_bytes: le64(body, 56),
            dir_root: Ptr::get(body, 64),
            free_count: le64(body, 128),
            free_levels: le64(body, 136),
            free_root: Ptr::get(body, 144),
        }
    }

    /// Whether each value is in its range on a disk of so many bytes.
    pub fn is_in_range(&self, size: u64) -> bool
        ensures { IsTrue result ↔ InRange size self.now }
    {
        self.version == VERSION
            && (1..1 << 31).contains(&self.id)
            && 8 <= self.end
            && self.end <= self.sectors
            && self.sectors <= size / 512
            && self.dir_levels <= 7
            && self.free_levels <= 7
            && self.dir_root.is_lawful()
            && self.free_root.is_lawful()
    }
}
