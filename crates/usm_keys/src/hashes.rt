//! The hashes of the three authentication protocols, over the crates that compute them.
ghost use Rattle.md5.specs.Md5.{Holds as HoldsMd5, md5};
ghost use Rattle.sha1.specs.Sha1.{Holds as HoldsSha1, sha1};
ghost use Rattle.sha2.specs.Hashers.{Holds256};
ghost use Rattle.sha2.specs.Sha256.{sha256};

use crate::hash::{AuthHash, octets_of};
use arrayvec::ArrayVec;
use md5::{Digest, Md5};
use sha1::Sha1;
use sha2::{Digest as _, Sha256};

impl AuthHash for Md5 {
    ghost use Rattle.std.proofs.Common.{rules};
    ghost use Rattle.usm_keys.specs.declared.auth.Auth.TheVariants.{Md5};
    ghost use Rattle.usm_keys.specs.Protocols.{block_octets, key_octets, mac_octets};
    ghost use Rattle.usm_keys.specs.Digests.{length-md5, octets-md5};

    const BLOCK: usize = 64;

    const OUT: usize = 16;

    const MAC: usize = 12;

    ghost BLOCK = { block_octets Md5 };

    ghost OUT = { key_octets Md5 };

    ghost MAC = { mac_octets Md5 };

    ghost hash = { λ m. md5 m };

    ghost holds = { λ s m. HoldsMd5 s m };

    fn start() -> Md5 {
        Md5::new()
    }

    fn feed(&mut self, piece: &[u8]) {
        self.update(piece);
    }

    fn copy(&self) -> Md5 {
        self.clone().unwrap()
    }

    fn finish(self) -> ArrayVec<u8, 32> {
        octets_of(&self.finalize())
    }

    ghost gives_out_octets = { λ m. length-md5 m };

    ghost gives_octets = { λ m. octets-md5 m };

    ghost out_fits = { Prim.search rules };

    ghost mac_within_out = { Prim.search rules };

    ghost block_is_64 = { Prim.search rules };
}

impl AuthHash for Sha1 {
    ghost use Rattle.std.proofs.Common.{rules};
    ghost use Rattle.usm_keys.specs.declared.auth.Auth.TheVariants.{Sha1};
    ghost use Rattle.usm_keys.specs.Protocols.{block_octets, key_octets, mac_octets};
    ghost use Rattle.usm_keys.specs.Digests.{length-sha1, octets-sha1};

    const BLOCK: usize = 64;

    const OUT: usize = 20;

    const MAC: usize = 12;

    ghost BLOCK = { block_octets Sha1 };

    ghost OUT = { key_octets Sha1 };

    ghost MAC = { mac_octets Sha1 };

    ghost hash = { λ m. sha1 m };

    ghost holds = { λ s m. HoldsSha1 s m };

    fn start() -> Sha1 {
        Sha1::new()
    }

    fn feed(&mut self, piece: &[u8]) {
        self.update(piece);
    }

    fn copy(&self) -> Sha1 {
        self.clone().unwrap()
    }

    fn finish(self) -> ArrayVec<u8, 32> {
        octets_of(&self.finalize())
    }

    ghost gives_out_octets = { λ m. length-sha1 m };

    ghost gives_octets = { λ m. octets-sha1 m };

    ghost out_fits = { Prim.search rules };

    ghost mac_within_out = { Prim.search rules };

    ghost block_is_64 = { Prim.search rules };
}

impl AuthHash for Sha256 {
    ghost use Rattle.std.proofs.Common.{rules};
    ghost use Rattle.usm_keys.specs.declared.auth.Auth.TheVariants.{Sha256};
    ghost use Rattle.usm_keys.specs.Protocols.{block_octets, key_octets, mac_octets};
    ghost use Rattle.usm_keys.specs.Digests.{length-sha256, octets-sha256};

    const BLOCK: usize = 64;

    const OUT: usize = 32;

    const MAC: usize = 24;

    ghost BLOCK = { block_octets Sha256 };

    ghost OUT = { key_octets Sha256 };

    ghost MAC = { mac_octets Sha256 };

    ghost hash = { λ m. sha256 m };

    ghost holds = { λ s m. Holds256 s m };

    fn start() -> Sha256 {
        Sha256::new()
    }

    fn feed(&mut self, piece: &[u8]) {
        self.update(piece);
    }

    fn copy(&self) -> Sha256 {
        self.clone().unwrap()
    }

    fn finish(self) -> ArrayVec<u8, 32> {
        octets_of(&self.finalize())
    }

    ghost gives_out_octets = { λ m. length-sha256 m };

    ghost gives_octets = { λ m. octets-sha256 m };

    ghost out_fits = { Prim.search rules };

    ghost mac_within_out = { Prim.search rules };

    ghost block_is_64 = { Prim.search rules };
}
