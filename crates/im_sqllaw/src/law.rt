ghost use Rattle.im_sqllaw.specs.Law.{KeepsSql, found-keeps};

use im_table::law::Law;

/// The law that the keys which begin with octet 00 stay what SQL reads and writes, where they were that as the store was opened.
pub struct SqlKeys;

impl Law for SqlKeys {
    ghost allows = { KeepsSql };

    ghost allows_found = { found-keeps };
}
