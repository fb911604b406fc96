//! Whether a row breaks a rule. Each rule reads the item of the row, and the first items with its keys.

ghost use Rattle.std.specs.Prelude.{◌≡◌, ◌==◌, ◌&&◌, ◌||◌, false, not, nat_lt, is_some, length};
ghost use Rattle.std.specs.Option.{option_copied, option_map, option_map_or};
ghost use Rattle.ddt_path.specs.Locators.{are_distinct as are_distinct_of, most_locators};
ghost use Rattle.ddt_register.specs.declared.register.Register.{Register as ARegister};
ghost use Rattle.ddt_check.specs.Rules.{is_root as is_root_zone, is_duplicate_zone, is_duplicate_site, is_of_unknown_group, is_of_other_role, has_wrong_locators, is_below_map_server, is_outside, has_too_many_etrs, is_duplicate_group};
ghost use Rattle.ddt_check.specs.Zones.{is_ms as is_ms_zone, zone_of};
ghost use Rattle.ddt_review.specs.Faults.Broken.{earlier_root, earlier_sharer, first_site, first_zone, group_row, zone_above, zone_in};
ghost use Rattle.ddt_review.specs.Faults.Told.{IsIndexOf, IsInRow, fault_if as fault_if_of, told};

use crate::faults::broken::Broken;
use crate::faults::first_items::RowAndKind;
use crate::faults::index::{Index, is_root};
use crate::faults::items_in_row::ItemsInRow;
use crate::faults::longest_zone::longest;
use ddt_check::Rule;
use ddt_path::{MOST_LOCATORS, Role, are_distinct};
use ddt_register::{Group, Site, Zone};
use ddt_trie::PrefixMap;

/// The fault of a row if it breaks a rule.
fn fault_if(breaks: bool, row: u32, rule: Rule, other: Option<u32>) -> Option<Broken>
    ensures { result ≡ fault_if_of breaks row rule other }
{
    breaks.then_some(Broken { row, rule, other })
}

/// Whether `first` is Some and before another row.
fn is_before(first: Option<u32>, row: u32) -> bool
    ensures { result ≡ option_map_or (λ f. nat_lt f row) first false }
{
    match first {
        Some(first) => first < row,
        None => false,
    }
}

/// The row of what was found.
fn row_of(found: Option<&RowAndKind>) -> Option<u32>
    ensures { result ≡ option_map (λ f. f.row) (option_copied found.entry) }
{
    found.map(|found| found.row)
}

/// Whether a zone is a root that Map-Servers serve, or a root with another before it.
fn is_wrong_root(zone: &Zone, earlier: Option<u32>) -> bool
    ensures { result ≡ (is_root_zone zone.now && (is_ms_zone zone.now.kind || is_some earlier)) }
{
    is_root(zone) && (zone.kind == Role::Ms || earlier.is_some())
}

/// Whether a group has no locator, more than 8, one twice, or one that an earlier group has.
fn are_wrong(group: &Group, earlier: Option<u32>) -> bool
    ensures { result ≡ ((length group.now.locators == 0 || nat_lt most_locators (length group.now.locators))
        || (not (are_distinct_of group.now.locators) || is_some earlier)) }
{
    let locators = group.locators.as_slice();
    (locators.is_empty() || locators.len() > MOST_LOCATORS)
        || (!are_distinct(locators) || earlier.is_some())
}

impl Index {
    /// The fault if a row breaks a rule.
    pub fn fault(&self, rule: Rule, row: u32, items: ItemsInRow) -> Option<Broken>
        ensures { (r : ARegister) → IsIndexOf r self.now → IsInRow r row items.entry → result ≡ told r row rule }
    {
        match rule {
            Rule::NoRoot => self.no_root(row, items.zone),
            Rule::DuplicateZone => self.duplicate_zone(items.zone?),
            Rule::DuplicateSite => self.duplicate_site(items.site?),
            Rule::UnknownGroup => self.unknown_group(items.zone?),
            Rule::Role => self.other_role(items.zone?),
            Rule::Locators => self.wrong_locators(items.group?),
            Rule::BelowMapServer => self.below_map_server(items.zone?),
            Rule::SiteOutside => self.site_outside(items.site?),
            Rule::TooManyEtrs => too_many_etrs(items.site?),
            Rule::DuplicateGroup => self.duplicate_group(items.group?),
        }
    }

    /// A1: row 0 if there is no root; else a root of Map-Servers, or one after the first.
    fn no_root(&self, row: u32, zone: Option<&Zone>) -> Option<Broken>
        ensures { (r : ARegister) → IsIndexOf r self.now → option_copied zone.entry ≡ zone_in r row
            → result ≡ told r row Rule.NoRoot }
    {
        let Some(root) = self.root else {
            return fault_if(row == 0, row, Rule::NoRoot, None);
        };
        let zone = zone?;
        let earlier = (root < row).then_some(root);
        fault_if(is_wrong_root(zone, earlier), row, Rule::NoRoot, earlier)
    }

    /// A2: a zone whose prefix an earlier one has.
    fn duplicate_zone(&self, zone: &Zone) -> Option<Broken>
        ensures { (r : ARegister) → IsIndexOf r self.now → result ≡ fault_if_of (is_duplicate_zone r zone.now)
            zone.now.row Rule.DuplicateZone (first_zone r zone.now.prefix) }
    {
        let first = row_of(self.zones.get(zone.prefix));
        let breaks = is_before(first, zone.row);
        fault_if(breaks, zone.row, Rule::DuplicateZone, first)
    }

    /// A3: a site whose prefix an earlier one has.
    fn duplicate_site(&self, site: &Site) -> Option<Broken>
        ensures { (r : ARegister) → IsIndexOf r self.now → result ≡ fault_if_of (is_duplicate_site r site.now)
            site.now.row Rule.DuplicateSite (first_site r site.now.prefix) }
    {
        let first = self.sites.get(&site.prefix).copied();
        let breaks = is_before(first, site.row);
        fault_if(breaks, site.row, Rule::DuplicateSite, first)
    }

    /// A4: a zone whose group has no row.
    fn unknown_group(&self, zone: &Zone) -> Option<Broken>
        ensures { (r : ARegister) → IsIndexOf r self.now → result ≡ fault_if_of (is_of_unknown_group r zone.now)
            zone.now.row Rule.UnknownGroup None }
    {
        let breaks = !self.groups.contains_key(&zone.group);
        fault_if(breaks, zone.row, Rule::UnknownGroup, None)
    }

    /// A5: a zone whose group is of the other kind.
    fn other_role(&self, zone: &Zone) -> Option<Broken>
        ensures { (r : ARegister) → IsIndexOf r self.now → result ≡ fault_if_of (is_of_other_role r zone.now)
            zone.now.row Rule.Role (group_row r zone.now.group) }
    {
        let group = self.groups.get(&zone.group)?;
        let breaks = group.kind != zone.kind;
        fault_if(breaks, zone.row, Rule::Role, Some(group.row))
    }

    /// A6: a group whose locators are wrong by themselves, or of which an earlier group has one.
    fn wrong_locators(&self, group: &Group) -> Option<Broken>
        ensures { (r : ARegister) → IsIndexOf r self.now → result ≡ fault_if_of (has_wrong_locators r group.now)
            group.now.row Rule.Locators (earlier_sharer r group.now) }
    {
        let earlier = self.earlier_sharer(group);
        let breaks = are_wrong(group, earlier);
        fault_if(breaks, group.row, Rule::Locators, earlier)
    }

    /// The first group before this one that has one of its locators.
    fn earlier_sharer(&self, group: &Group) -> Option<u32>
        ensures { (r : ARegister) → IsIndexOf r self.now → result ≡ earlier_sharer r group.now }
    {
        let mut least = group.row;
        for locator in group.locators.as_slice() {
            if let Some(row) = self.locators.get(locator) {
                least = least.min(*row);
            }
        }
        (least < group.row).then_some(least)
    }

    /// A7: a zone strictly below one of Map-Servers. A zone strictly above a prefix covers the next shorter prefix.
    fn below_map_server(&self, zone: &Zone) -> Option<Broken>
        ensures { (r : ARegister) → IsIndexOf r self.now → result ≡ fault_if_of (is_below_map_server r zone.now)
            zone.now.row Rule.BelowMapServer (option_map (λ y. y.row) (zone_above r zone.now.prefix)) }
    {
        let len = zone.prefix.len().checked_sub(1)?;
        let above = longest(&self.map_servers, zone.prefix.front(len))?;
        fault_if(true, zone.row, Rule::BelowMapServer, Some(above.row))
    }

    /// A8: a site whose zone isn't of Map-Servers, or that has none.
    fn site_outside(&self, site: &Site) -> Option<Broken>
        ensures { (r : ARegister) → IsIndexOf r self.now → result ≡ fault_if_of (is_outside r site.now)
            site.now.row Rule.SiteOutside (option_map (λ z. z.row) (zone_of r site.now.prefix)) }
    {
        let Some(zone) = longest(&self.zones, site.prefix) else {
            return fault_if(true, site.row, Rule::SiteOutside, None);
        };
        let breaks = zone.kind != Role::Ms;
        fault_if(breaks, site.row, Rule::SiteOutside, Some(zone.row))
    }

    /// A10: a group whose name an earlier one has.
    fn duplicate_group(&self, group: &Group) -> Option<Broken>
        ensures { (r : ARegister) → IsIndexOf r self.now → result ≡ fault_if_of (is_duplicate_group r group.now)
            group.now.row Rule.DuplicateGroup (group_row r group.now.name) }
    {
        let first = row_of(self.groups.get(&group.name));
        let breaks = is_before(first, group.row);
        fault_if(breaks, group.row, Rule::DuplicateGroup, first)
    }
}

/// A9: a site with more than 8 ETRs.
fn too_many_etrs(site: &Site) -> Option<Broken>
    ensures { result ≡ fault_if_of (has_too_many_etrs site.now) site.now.row Rule.TooManyEtrs None }
{
    let breaks = site.etrs.as_slice().len() > MOST_LOCATORS;
    fault_if(breaks, site.row, Rule::TooManyEtrs, None)
}
