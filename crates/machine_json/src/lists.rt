ghost use Rattle.std.specs.Prelude.{◌≡◌, string_bytes};

use crate::description::ImageSpec;
use std::marker::Model;

/// A key of a description, whole, as `costs.fill` or `images.3.at`. Contracts see it as its bytes.
#[derive(Debug, Drop)]
pub struct Key {
    inner: String,
}

impl Model for Key {
    ghost use Rattle.std.specs.Prelude.{List, ℕ, string_bytes};

    ghost Value = { List ℕ };

    ghost view = { λ k. string_bytes k.inner };
}

impl Key {
    /// This text.
    pub fn new(inner: String) -> Key
        ensures { result ≡ string_bytes inner }
    {
        Key { inner }
    }

    /// The text.
    pub fn get(&self) -> &str
        ensures { result.now ≡ self.now }
    {
        self.inner.as_str()
    }

    /// The text given back.
    pub fn into_inner(self) -> String
        ensures { string_bytes result ≡ self }
    {
        self.inner
    }
}

/// The name of a file. Contracts see it as its bytes.
#[derive(Debug, Drop)]
pub struct FileName {
    inner: String,
}

impl Model for FileName {
    ghost use Rattle.std.specs.Prelude.{List, ℕ, string_bytes};

    ghost Value = { List ℕ };

    ghost view = { λ n. string_bytes n.inner };
}

impl FileName {
    /// This text.
    pub fn new(inner: String) -> FileName
        ensures { result ≡ string_bytes inner }
    {
        FileName { inner }
    }

    /// The text.
    pub fn get(&self) -> &str
        ensures { result.now ≡ self.now }
    {
        self.inner.as_str()
    }

    /// The text given back.
    pub fn into_inner(self) -> String
        ensures { string_bytes result ≡ self }
    {
        self.inner
    }
}

/// The bytes of an image. Contracts see them as their list.
#[derive(Debug, Drop)]
pub struct ByteList {
    inner: Vec<u8>,
}

impl Model for ByteList {
    ghost use Rattle.std.specs.Prelude.{List, ℕ};

    ghost Value = { List ℕ };

    ghost view = { λ b. b.inner.items };
}

impl ByteList {
    /// These bytes.
    pub fn new(inner: Vec<u8>) -> ByteList
        ensures { result ≡ inner.items }
    {
        ByteList { inner }
    }

    /// The bytes in their order.
    pub fn get(&self) -> &[u8]
        ensures { result.now ≡ self.now }
    {
        self.inner.as_slice()
    }

    /// The bytes given back.
    pub fn into_inner(self) -> Vec<u8>
        ensures { result.items ≡ self }
    {
        self.inner
    }
}

/// The images of a description. Contracts see them as their list.
#[derive(Debug, Drop)]
pub struct ImageSpecs {
    inner: Vec<ImageSpec>,
}

impl Model for ImageSpecs {
    ghost use Rattle.std.specs.Prelude.{List};
    ghost use Rattle.machine_json.specs.declared.description.ImageSpec.{ImageSpec};

    ghost Value = { List ImageSpec };

    ghost view = { λ s. s.inner.items };
}

impl ImageSpecs {
    /// These images.
    pub fn new(inner: Vec<ImageSpec>) -> ImageSpecs
        ensures { result ≡ inner.items }
    {
        ImageSpecs { inner }
    }

    /// The images in their order.
    pub fn get(&self) -> &[ImageSpec]
        ensures { result.now ≡ self.now }
    {
        self.inner.as_slice()
    }

    /// The images given back.
    pub fn into_inner(self) -> Vec<ImageSpec>
        ensures { result.items ≡ self }
    {
        self.inner
    }
}
