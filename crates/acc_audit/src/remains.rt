//! What a judgement leaves.
use crate::front::Front;
use crate::users::Users;
use acc_document_fields::NameTable;
use acc_schedule::Bodies;
use acc_value::Key;
use serde_json::Value;
use std::collections::BTreeMap;

/// What nobody needs once a case is judged. To free it piece by piece takes as long as a tenth of the judgement. Whoever ends
/// soon leaves it to the system (`std::mem::forget`), and all others drop it.
#[derive(Drop)]
pub struct Remains {
    pub(crate) root: Option<Value>,
    pub(crate) names: Option<NameTable>,
    pub(crate) bodies: Option<Bodies>,
    pub(crate) users: Option<BTreeMap<Key, Users>>,
    pub(crate) front: Option<Front>,
}

impl Remains {
    /// Nothing.
    pub fn new() -> Remains {
        Remains {
            root: None,
            names: None,
            bodies: None,
            users: None,
            front: None,
        }
    }
}
